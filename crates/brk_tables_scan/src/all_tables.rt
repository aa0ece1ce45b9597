//! Written by tools/generate/tables.py.
//! The reads of all tables, in groups of two to four (the comment of the struct of a group names
//! them): first all rows are read, and then decoded, table by table; the raw rows of a table are
//! dropped as they are decoded. Of KEPT, whose texts are long and of which an audit checks only that
//! they are UTF-8, the keys alone are kept as it is read. If a table has a malformed row, DESK not
//! exactly one row with the number of the schema, or SETTLE_RULE two rows or more,
//! `are_well_formed` of the decoder is false, and there are no typed rows of this table.

ghost use Rattle.std.specs.Prelude.{◌≡◌, IfOk};
ghost use Rattle.brk_trade_rows.specs.Schemas.{abstract_schema};
ghost use Rattle.brk_tables_sql.specs.Model.{IsConnectionStep};
ghost use Rattle.brk_tables_scan.specs.Raw.{ShowsListingTables, ShowsTermsTables, ShowsTradeTables, ShowsBookingTables, ShowsLaterTables};
ghost use Rattle.brk_tables_scan.specs.Decoded.{are_owner_rows_well_formed, are_listing_rows_well_formed, are_terms_rows_well_formed};
ghost use Rattle.brk_tables_scan.specs.Decoded.{are_trade_rows_well_formed, are_booking_rows_well_formed, are_later_rows_well_formed};
ghost use Rattle.brk_tables_scan.specs.Decoded.{are_raw_rows_well_formed};
ghost use Rattle.brk_tables_scan.specs.Decoded.{DecodesOwnerTables, DecodesListingTables, DecodesTermsTables, DecodesTradeTables};
ghost use Rattle.brk_tables_scan.specs.Decoded.{DecodesBookingTables, DecodesLaterTables, DecodesRows};
ghost use Rattle.brk_tables_scan.specs.Decoded.{ContinuesDecoding, ReadsOwnerTables, ReadsRawSheets, ReadsAndDecodesDeskTables};

use crate::decoder::Decoder;
use crate::rows::{
    account_rows, broker_rows, cash_move_rows_in_schema, cash_transaction_rows, charge_rows,
    commission_rate_rows, customer_rows, customer_tax_rows, desk_rows, holding_history_rows,
    holding_rows, holding_summary_rows, kept_rows, last_trade_rows, permission_rows, security_rows,
    settle_rule_rows_in_schema, settlement_rows, tax_rate_rows, trade_history_rows,
    trade_request_rows, trade_rows,
};
use brk_money::{CallFault, Day, Stamp, StoreFailed};
use brk_ref::{
    AccountRow, Band, BrokerRow, CashRow, Charge, Customer, CustomerTax, HistoryRow, HoldingRow,
    Key, LastTrade, LotChange, OldCashRow, Permission, RequestRow, Security, SettlementRow,
    SummaryRow, Tax, TradeRow,
};
use brk_trade_rows::{Schema, Sheets};
use sqlite::{Alter, Row, Transaction};
use std::alloc::{AllocError, Global};

/// The raw rows of DESK, KEPT, BROKER and CUSTOMER, of KEPT the keys.
#[derive(Drop)]
pub struct OwnerRows {
    desk: Vec<Row>,
    kept: Vec<Key>,
    brokers: Vec<Row>,
    customers: Vec<Row>,
}

fn read_owner_group<S: Alter>(
    tx: &mut Transaction<'_, S>,
    alloc: Global,
    decoder: &mut Decoder,
) -> Result<OwnerRows, CallFault>
    ensures same_reference { tx.new.conn.ghost_name ≡ tx.old.conn.ghost_name }
    ensures step { IsConnectionStep S.Store tx.old tx.new result (λ raw. ReadsOwnerTables decoder.old.are_well_formed decoder.new.are_well_formed raw) }
{
    let desk = desk_rows(tx)?;
    let kept = decoder.decode_kept_keys(alloc, kept_rows(tx)?)?;
    let brokers = broker_rows(tx)?;
    let customers = customer_rows(tx)?;
    Ok(OwnerRows {
        desk,
        kept,
        brokers,
        customers,
    })
}

/// The typed rows of DESK, KEPT, BROKER and CUSTOMER.
#[derive(Drop)]
pub struct OwnerSheets {
    last: Option<Stamp>,
    kept: Vec<Key>,
    brokers: Vec<BrokerRow>,
    customers: Vec<Customer>,
}

fn decode_owner_group(
    alloc: Global,
    schema: Schema,
    raw: OwnerRows,
    decoder: &mut Decoder,
) -> Result<OwnerSheets, AllocError>
    ensures decoded { IfOk result (λ sheets. ContinuesDecoding decoder.old.are_well_formed decoder.new.are_well_formed
        (are_owner_rows_well_formed (abstract_schema schema) raw) (DecodesOwnerTables (abstract_schema schema) sheets raw)) }
{
    let last = decoder.decode_last_stamp(schema, raw.desk)?;
    let brokers = decoder.decode(alloc, raw.brokers)?;
    let customers = decoder.decode(alloc, raw.customers)?;
    Ok(OwnerSheets {
        last,
        kept: raw.kept,
        brokers,
        customers,
    })
}

/// The raw rows of CUSTOMER_ACCOUNT, ACCOUNT_PERMISSION, SECURITY and LAST_TRADE.
#[derive(Drop)]
pub struct ListingRows {
    accounts: Vec<Row>,
    permissions: Vec<Row>,
    securities: Vec<Row>,
    last_trades: Vec<Row>,
}

fn read_listing_group<S: Alter>(tx: &mut Transaction<'_, S>) -> Result<ListingRows, StoreFailed>
    ensures same_reference { tx.new.conn.ghost_name ≡ tx.old.conn.ghost_name }
    ensures step { IsConnectionStep S.Store tx.old tx.new result (λ raw. ShowsListingTables raw) }
{
    let accounts = account_rows(tx)?;
    let permissions = permission_rows(tx)?;
    let securities = security_rows(tx)?;
    let last_trades = last_trade_rows(tx)?;
    Ok(ListingRows {
        accounts,
        permissions,
        securities,
        last_trades,
    })
}

/// The typed rows of CUSTOMER_ACCOUNT, ACCOUNT_PERMISSION, SECURITY and LAST_TRADE.
#[derive(Drop)]
pub struct ListingSheets {
    accounts: Vec<AccountRow>,
    permissions: Vec<Permission>,
    securities: Vec<Security>,
    last_trades: Vec<LastTrade>,
}

fn decode_listing_group(
    alloc: Global,
    raw: ListingRows,
    decoder: &mut Decoder,
) -> Result<ListingSheets, AllocError>
    ensures decoded { IfOk result (λ sheets. ContinuesDecoding decoder.old.are_well_formed decoder.new.are_well_formed
        (are_listing_rows_well_formed raw) (DecodesListingTables sheets raw)) }
{
    let accounts = decoder.decode(alloc, raw.accounts)?;
    let permissions = decoder.decode(alloc, raw.permissions)?;
    let securities = decoder.decode(alloc, raw.securities)?;
    let last_trades = decoder.decode(alloc, raw.last_trades)?;
    Ok(ListingSheets {
        accounts,
        permissions,
        securities,
        last_trades,
    })
}

/// The raw rows of CHARGE, COMMISSION_RATE, TAXRATE and CUSTOMER_TAXRATE.
#[derive(Drop)]
pub struct TermsRows {
    charges: Vec<Row>,
    bands: Vec<Row>,
    tax_rates: Vec<Row>,
    customer_taxes: Vec<Row>,
}

fn read_terms_group<S: Alter>(tx: &mut Transaction<'_, S>) -> Result<TermsRows, StoreFailed>
    ensures same_reference { tx.new.conn.ghost_name ≡ tx.old.conn.ghost_name }
    ensures step { IsConnectionStep S.Store tx.old tx.new result (λ raw. ShowsTermsTables raw) }
{
    let charges = charge_rows(tx)?;
    let bands = commission_rate_rows(tx)?;
    let tax_rates = tax_rate_rows(tx)?;
    let customer_taxes = customer_tax_rows(tx)?;
    Ok(TermsRows {
        charges,
        bands,
        tax_rates,
        customer_taxes,
    })
}

/// The typed rows of CHARGE, COMMISSION_RATE, TAXRATE and CUSTOMER_TAXRATE.
#[derive(Drop)]
pub struct TermsSheets {
    charges: Vec<Charge>,
    bands: Vec<Band>,
    tax_rates: Vec<Tax>,
    customer_taxes: Vec<CustomerTax>,
}

fn decode_terms_group(
    alloc: Global,
    raw: TermsRows,
    decoder: &mut Decoder,
) -> Result<TermsSheets, AllocError>
    ensures decoded { IfOk result (λ sheets. ContinuesDecoding decoder.old.are_well_formed decoder.new.are_well_formed
        (are_terms_rows_well_formed raw) (DecodesTermsTables sheets raw)) }
{
    let charges = decoder.decode(alloc, raw.charges)?;
    let bands = decoder.decode(alloc, raw.bands)?;
    let tax_rates = decoder.decode(alloc, raw.tax_rates)?;
    let customer_taxes = decoder.decode(alloc, raw.customer_taxes)?;
    Ok(TermsSheets {
        charges,
        bands,
        tax_rates,
        customer_taxes,
    })
}

/// The raw rows of TRADE, TRADE_HISTORY, TRADE_REQUEST and HOLDING.
#[derive(Drop)]
pub struct TradeRows {
    trades: Vec<Row>,
    history: Vec<Row>,
    requests: Vec<Row>,
    holdings: Vec<Row>,
}

fn read_trade_group<S: Alter>(tx: &mut Transaction<'_, S>) -> Result<TradeRows, StoreFailed>
    ensures same_reference { tx.new.conn.ghost_name ≡ tx.old.conn.ghost_name }
    ensures step { IsConnectionStep S.Store tx.old tx.new result (λ raw. ShowsTradeTables raw) }
{
    let trades = trade_rows(tx)?;
    let history = trade_history_rows(tx)?;
    let requests = trade_request_rows(tx)?;
    let holdings = holding_rows(tx)?;
    Ok(TradeRows {
        trades,
        history,
        requests,
        holdings,
    })
}

/// The typed rows of TRADE, TRADE_HISTORY, TRADE_REQUEST and HOLDING.
#[derive(Drop)]
pub struct TradeSheets {
    trades: Vec<TradeRow>,
    history: Vec<HistoryRow>,
    requests: Vec<RequestRow>,
    holdings: Vec<HoldingRow>,
}

fn decode_trade_group(
    alloc: Global,
    raw: TradeRows,
    decoder: &mut Decoder,
) -> Result<TradeSheets, AllocError>
    ensures decoded { IfOk result (λ sheets. ContinuesDecoding decoder.old.are_well_formed decoder.new.are_well_formed
        (are_trade_rows_well_formed raw) (DecodesTradeTables sheets raw)) }
{
    let trades = decoder.decode(alloc, raw.trades)?;
    let history = decoder.decode(alloc, raw.history)?;
    let requests = decoder.decode(alloc, raw.requests)?;
    let holdings = decoder.decode(alloc, raw.holdings)?;
    Ok(TradeSheets {
        trades,
        history,
        requests,
        holdings,
    })
}

/// The raw rows of HOLDING_SUMMARY, HOLDING_HISTORY, SETTLEMENT and CASH_TRANSACTION.
#[derive(Drop)]
pub struct BookingRows {
    summaries: Vec<Row>,
    holding_history: Vec<Row>,
    settlements: Vec<Row>,
    cash: Vec<Row>,
}

fn read_booking_group<S: Alter>(tx: &mut Transaction<'_, S>) -> Result<BookingRows, StoreFailed>
    ensures same_reference { tx.new.conn.ghost_name ≡ tx.old.conn.ghost_name }
    ensures step { IsConnectionStep S.Store tx.old tx.new result (λ raw. ShowsBookingTables raw) }
{
    let summaries = holding_summary_rows(tx)?;
    let holding_history = holding_history_rows(tx)?;
    let settlements = settlement_rows(tx)?;
    let cash = cash_transaction_rows(tx)?;
    Ok(BookingRows {
        summaries,
        holding_history,
        settlements,
        cash,
    })
}

/// The typed rows of HOLDING_SUMMARY, HOLDING_HISTORY, SETTLEMENT and CASH_TRANSACTION.
#[derive(Drop)]
pub struct BookingSheets {
    summaries: Vec<SummaryRow>,
    holding_history: Vec<LotChange>,
    settlements: Vec<SettlementRow>,
    cash: Vec<OldCashRow>,
}

fn decode_booking_group(
    alloc: Global,
    raw: BookingRows,
    decoder: &mut Decoder,
) -> Result<BookingSheets, AllocError>
    ensures decoded { IfOk result (λ sheets. ContinuesDecoding decoder.old.are_well_formed decoder.new.are_well_formed
        (are_booking_rows_well_formed raw) (DecodesBookingTables sheets raw)) }
{
    let summaries = decoder.decode(alloc, raw.summaries)?;
    let holding_history = decoder.decode(alloc, raw.holding_history)?;
    let settlements = decoder.decode(alloc, raw.settlements)?;
    let cash = decoder.decode(alloc, raw.cash)?;
    Ok(BookingSheets {
        summaries,
        holding_history,
        settlements,
        cash,
    })
}

/// The raw rows of CASH_MOVE and SETTLE_RULE.
#[derive(Drop)]
pub struct LaterRows {
    moves: Vec<Row>,
    rule: Vec<Row>,
}

fn read_later_group<S: Alter>(
    tx: &mut Transaction<'_, S>,
    alloc: Global,
    schema: Schema,
) -> Result<LaterRows, StoreFailed>
    ensures same_reference { tx.new.conn.ghost_name ≡ tx.old.conn.ghost_name }
    ensures step { IsConnectionStep S.Store tx.old tx.new result (λ raw. ShowsLaterTables (abstract_schema schema) raw) }
{
    let moves = cash_move_rows_in_schema(tx, alloc, schema)?;
    let rule = settle_rule_rows_in_schema(tx, alloc, schema)?;
    Ok(LaterRows { moves, rule })
}

/// The typed rows of CASH_MOVE and SETTLE_RULE.
#[derive(Drop)]
pub struct LaterSheets {
    moves: Vec<CashRow>,
    rule: Option<Day>,
}

fn decode_later_group(
    alloc: Global,
    raw: LaterRows,
    decoder: &mut Decoder,
) -> Result<LaterSheets, AllocError>
    ensures decoded { IfOk result (λ sheets. ContinuesDecoding decoder.old.are_well_formed decoder.new.are_well_formed
        (are_later_rows_well_formed raw) (DecodesLaterTables sheets raw)) }
{
    let moves = decoder.decode(alloc, raw.moves)?;
    let rule = decoder.decode_rule(raw.rule)?;
    Ok(LaterSheets { moves, rule })
}

/// The raw rows of all tables of a desk.
#[derive(Drop)]
pub struct RawSheets {
    owners: OwnerRows,
    listings: ListingRows,
    terms: TermsRows,
    trades: TradeRows,
    bookings: BookingRows,
    later: LaterRows,
}

fn read_raw_sheets<S: Alter>(
    tx: &mut Transaction<'_, S>,
    alloc: Global,
    schema: Schema,
    decoder: &mut Decoder,
) -> Result<RawSheets, CallFault>
    ensures same_reference { tx.new.conn.ghost_name ≡ tx.old.conn.ghost_name }
    ensures step { IsConnectionStep S.Store tx.old tx.new result
        (λ raw. ReadsRawSheets (abstract_schema schema) decoder.old.are_well_formed decoder.new.are_well_formed raw) }
{
    let owners = read_owner_group(tx, alloc, decoder)?;
    let listings = read_listing_group(tx)?;
    let terms = read_terms_group(tx)?;
    let trades = read_trade_group(tx)?;
    let bookings = read_booking_group(tx)?;
    let later = read_later_group(tx, alloc, schema)?;
    Ok(RawSheets {
        owners,
        listings,
        terms,
        trades,
        bookings,
        later,
    })
}

fn decode_raw_sheets(
    alloc: Global,
    schema: Schema,
    raw: RawSheets,
    decoder: &mut Decoder,
) -> Result<Sheets, AllocError>
    ensures decoded { IfOk result (λ sheets. ContinuesDecoding decoder.old.are_well_formed decoder.new.are_well_formed
        (are_raw_rows_well_formed (abstract_schema schema) raw) (DecodesRows (abstract_schema schema) sheets raw)) }
    ensures of_schema { IfOk result (λ sheets. sheets.schema ≡ schema) }
{
    let owners = decode_owner_group(alloc, schema, raw.owners, decoder)?;
    let listings = decode_listing_group(alloc, raw.listings, decoder)?;
    let terms = decode_terms_group(alloc, raw.terms, decoder)?;
    let trades = decode_trade_group(alloc, raw.trades, decoder)?;
    let bookings = decode_booking_group(alloc, raw.bookings, decoder)?;
    let later = decode_later_group(alloc, raw.later, decoder)?;
    Ok(Sheets {
        schema,
        last: owners.last,
        kept: owners.kept,
        brokers: owners.brokers,
        customers: owners.customers,
        accounts: listings.accounts,
        permissions: listings.permissions,
        securities: listings.securities,
        last_trades: listings.last_trades,
        charges: terms.charges,
        bands: terms.bands,
        tax_rates: terms.tax_rates,
        customer_taxes: terms.customer_taxes,
        trades: trades.trades,
        history: trades.history,
        requests: trades.requests,
        holdings: trades.holdings,
        summaries: bookings.summaries,
        holding_history: bookings.holding_history,
        settlements: bookings.settlements,
        cash: bookings.cash,
        moves: later.moves,
        rule: later.rule,
    })
}

/// Returns the decoded rows of all tables of `schema`, each list sorted by key, ascending: of KEPT
/// the keys alone, of DESK the last stamp, and of SETTLE_RULE the first day of one-day settlement.
pub(crate) fn read_all_tables<S: Alter>(
    tx: &mut Transaction<'_, S>,
    alloc: Global,
    schema: Schema,
    decoder: &mut Decoder,
) -> Result<Sheets, CallFault>
    ensures same_reference { tx.new.conn.ghost_name ≡ tx.old.conn.ghost_name }
    ensures step { IsConnectionStep S.Store tx.old tx.new result
        (λ sheets. ReadsAndDecodesDeskTables (abstract_schema schema) decoder.old.are_well_formed decoder.new.are_well_formed sheets) }
    ensures of_schema { IfOk result (λ sheets. sheets.schema ≡ schema) }
{
    let raw = read_raw_sheets(tx, alloc, schema, decoder)?;
    let sheets = decode_raw_sheets(alloc, schema, raw, decoder)?;
    Ok(sheets)
}
