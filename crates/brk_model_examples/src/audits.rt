//! Audits of the tables of a base, which pass, and of tables that another program changed, which
//! fail.
#![tactic(auto, unfolding(crate::proofs::OnLiterals::model_on_literals))]

ghost use Rattle.std.specs.Prelude.{None, Some, pos, negsuc, codes};
ghost use Rattle.brk_money.specs.declared.fault.Condition.TheVariants as condition;
ghost use Rattle.brk_model.specs.Audit.{IsAuditResult};
ghost use Rattle.brk_model.specs.Schemas.{first_schema, second_schema, third_schema};
ghost use Rattle.brk_model_examples.specs.Bought.{tables_after_first_purchase, tables_with_zero_trade_quantity, tables_without_last_trade};
ghost use Rattle.brk_model_examples.specs.Bought.{tables_without_submission, tables_with_changed_trade_status, tables_with_request_of_completed_trade};
ghost use Rattle.brk_model_examples.specs.Bought.{tables_with_changed_lot_quantity, tables_with_changed_lot_price, tables_with_changed_trade_price};
ghost use Rattle.brk_model_examples.specs.Bought.{tables_with_changed_holding_history, tables_with_changed_summary, tables_with_changed_trade_count};
ghost use Rattle.brk_model_examples.specs.Bought.{tables_with_changed_commission_total, tables_with_changed_trade_commission, tables_with_changed_settlement};
ghost use Rattle.brk_model_examples.specs.Bought.{tables_with_changed_cash_amount, tables_with_changed_account_balance, tables_without_lots_and_summaries};
ghost use Rattle.brk_model_examples.specs.Bought.{first_schema_tables_after_purchase, tables_with_changed_cash_row_number};
ghost use Rattle.brk_model_examples.specs.Bought.{tables_with_second_cash_row_of_trade, tables_with_cash_row_of_older_schema};
ghost use Rattle.brk_model_examples.specs.Bought.{tables_with_trade_above_older_limit, tables_with_band_above_older_limit};
ghost use Rattle.brk_model_examples.specs.Bought.{tables_with_one_day_settlement_after_completion, tables_with_one_day_settlement_at_completion, tables_with_movement};

/// Shows that the tables after the first purchase pass the audit of the third and of the second
/// schema, and those with the cash row in CASH_TRANSACTION that of the first. With a first day of
/// one-day settlement after the completion, or with a deposit, the tables after the first purchase
/// pass the audit of the third schema, and with a withdrawal that of the second.
pub fn tables_after_purchase_pass_audit()
    ensures third { IsAuditResult third_schema tables_after_first_purchase None }
    ensures second { IsAuditResult second_schema tables_after_first_purchase None }
    ensures first { IsAuditResult first_schema first_schema_tables_after_purchase None }
    ensures day_set { IsAuditResult third_schema tables_with_one_day_settlement_after_completion None }
    ensures deposit { IsAuditResult third_schema (tables_with_movement 1709251200018 (pos 10000) (codes "Deposit")) None }
    ensures withdrawal { IsAuditResult second_schema (tables_with_movement 1709251200018 (negsuc 9999) (codes "Withdrawal")) None }
{}

/// Shows the condition that an audit in the third schema returns for each of 21 changes of the
/// tables after the first purchase. After the last change two conditions fail, `Lots` and
/// `Summary`, and the audit returns `Lots`, which is checked first.
pub fn audit_returns_first_failed_condition()
    ensures no_quantity { IsAuditResult third_schema tables_with_zero_trade_quantity (Some condition.Form) }
    ensures no_last_trade { IsAuditResult third_schema tables_without_last_trade (Some condition.Form) }
    ensures no_submission { IsAuditResult third_schema tables_without_submission (Some condition.Status) }
    ensures other_status { IsAuditResult third_schema tables_with_changed_trade_status (Some condition.Status) }
    ensures a_request { IsAuditResult third_schema tables_with_request_of_completed_trade (Some condition.Requests) }
    ensures other_lot { IsAuditResult third_schema tables_with_changed_lot_quantity (Some condition.Lots) }
    ensures other_lot_price { IsAuditResult third_schema tables_with_changed_lot_price (Some condition.Lots) }
    ensures other_trade_price { IsAuditResult third_schema tables_with_changed_trade_price (Some condition.Lots) }
    ensures other_history { IsAuditResult third_schema tables_with_changed_holding_history (Some condition.History) }
    ensures other_summary { IsAuditResult third_schema tables_with_changed_summary (Some condition.Summary) }
    ensures other_count { IsAuditResult third_schema tables_with_changed_trade_count (Some condition.Count) }
    ensures other_commissions { IsAuditResult third_schema tables_with_changed_commission_total (Some condition.Commission) }
    ensures other_commission { IsAuditResult third_schema tables_with_changed_trade_commission (Some condition.Commission) }
    ensures other_settlement { IsAuditResult third_schema tables_with_changed_settlement (Some condition.Settlement) }
    ensures other_cash { IsAuditResult third_schema tables_with_changed_cash_amount (Some condition.Cash) }
    ensures other_number { IsAuditResult third_schema tables_with_changed_cash_row_number (Some condition.Cash) }
    ensures second_row { IsAuditResult third_schema tables_with_second_cash_row_of_trade (Some condition.Form) }
    ensures left_behind { IsAuditResult third_schema tables_with_cash_row_of_older_schema (Some condition.Cash) }
    ensures early_day { IsAuditResult third_schema tables_with_one_day_settlement_at_completion (Some condition.Settlement) }
    ensures other_balance { IsAuditResult third_schema tables_with_changed_account_balance (Some condition.Balance) }
    ensures two_changes { IsAuditResult third_schema tables_without_lots_and_summaries (Some condition.Lots) }
{}

/// Shows the condition that an audit in the third schema returns for the tables after the first
/// purchase with one movement: `Form` if the movement is a deposit of an amount below 0 or of 0,
/// has the name `deposit`, or has a stamp after the last stamp; `Status` if its stamp equals the
/// stamp of the completion; and `Cash` if the cash row with the smaller number has a later stamp.
pub fn audit_fails_for_invalid_movement_rows()
    ensures other_sign { IsAuditResult third_schema (tables_with_movement 1709251200018 (negsuc 9999) (codes "Deposit")) (Some condition.Form) }
    ensures nothing_moved { IsAuditResult third_schema (tables_with_movement 1709251200018 (pos 0) (codes "Deposit")) (Some condition.Form) }
    ensures other_name { IsAuditResult third_schema (tables_with_movement 1709251200018 (pos 10000) (codes "deposit")) (Some condition.Form) }
    ensures after_the_last { IsAuditResult third_schema (tables_with_movement 1709251200019 (pos 10000) (codes "Deposit")) (Some condition.Form) }
    ensures at_a_completion { IsAuditResult third_schema (tables_with_movement 1709251200017 (pos 10000) (codes "Deposit")) (Some condition.Status) }
    ensures before_it { IsAuditResult third_schema (tables_with_movement 1709251200005 (pos 10000) (codes "Deposit")) (Some condition.Cash) }
{}

/// Shows that tables with a trade or a band whose quantity is above the limit of the second schema
/// fail the audit of this schema with `Form`, and that the tables with this band pass the audit of
/// the third. Tables with a first day of one-day settlement fail the audit of the second schema
/// with `Form`, tables with a row of CASH_MOVE that of the first with `Form`, and tables whose cash
/// row is in CASH_TRANSACTION that of the second with `Cash`.
pub fn audit_depends_on_schema()
    ensures quantity { IsAuditResult second_schema tables_with_trade_above_older_limit (Some condition.Form) }
    ensures band { IsAuditResult second_schema tables_with_band_above_older_limit (Some condition.Form) }
    ensures larger_limits { IsAuditResult third_schema tables_with_band_above_older_limit None }
    ensures no_rule_yet { IsAuditResult second_schema tables_with_one_day_settlement_after_completion (Some condition.Form) }
    ensures no_moves_yet { IsAuditResult first_schema tables_after_first_purchase (Some condition.Form) }
    ensures no_cash_any_more { IsAuditResult second_schema first_schema_tables_after_purchase (Some condition.Cash) }
{}
