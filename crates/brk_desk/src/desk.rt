use crate::asking::answer_query;
use crate::booking::{Answer, book_command};
use crate::call::{Call, Outcome};
use brk_desk_commands::Command;
use brk_desk_queries::{Head, account_head, statement_accounts};
use brk_explain_reads::{
    gather_account, gather_broker, gather_holding, gather_trade, visit_broker_trades,
};
use brk_explain_rows::{AccountDetails, BrokerDetails, HoldingDetails, TradeDetails};
use brk_lots::Lot;
use brk_money::{CallFault, Fault, Id, Planned, Stamp};
use brk_ref::{CashRow, HoldingRow, Key, Symbol, TradeRow};
use brk_store::{Store, Visitor, WalkError};
use brk_view_rows::{Query, View};
use sqlite::Alter;
use std::alloc::Global;
use std::marker::Model;

/// A desk, which executes commands and answers queries over one store. A *base* is the abstract
/// state of a brokerage; a desk *represents* a base if it holds the tables of the base and the base
/// is consistent. A command is *acknowledged* once its call has returned `Done`; `Again` returns a
/// stored reply and acknowledges nothing.
///
/// A *crash* is the end of the process or the machine. It *exposes* what the next open of the
/// database finds, after the `sqlite` crate has recovered the WAL. The clauses specify a crash
/// after a call has returned; no clause covers a crash within a call (docs/PROMISES.md, "Trusted
/// parts"). The clauses use the toolchain's model of a crash (`may_leave`), which supposes that a
/// successful sync has reached the disk, and limits what a torn write leaves. The disk assumption
/// does not include this model.
///
/// A desk is *open* while its store is: only an I/O error, a full disk or file, or a corrupt page
/// can close it, and not each does. No function of this crate returns whether it is open. Under the
/// disk assumption: a desk that is still open after a fault is unchanged, and a crash exposes only
/// its last commit; if a command's fault closed it, a crash may expose the command as committed.
///
/// In contracts the value of a desk is the connection of its store (`Held S`), and `t` are the rows
/// that the store holds.
///
/// A query, an audit, a read and a walk change nothing in a store that is still open, whatever the
/// result, and a crash after them exposes only states that a crash before them could expose.
///
/// The fault `Store` may also mean that a stored row is malformed, that a row that another row
/// requires does not exist, or that the `sqlite` crate ran out of memory; for a command also that a
/// lot has no shares, that a number or a sum is out of range, or that no CM_ID is left for a cash
/// row. None of these closes the store.
pub struct Desk<S: Alter> {
    store: Store<S>,
}

impl<S: Alter> Model for Desk<S> {
    ghost use Rattle.sqlite.specs.Held.{Held, held_code};

    ghost Value = { Held S };

    ghost coded = { held_code S.code };

    ghost view = { λ d. d.store };
}

impl<S: Alter + Drop> Drop for Desk<S> {
    // Drops the store. A derived `Drop` would not ask that the disk `S` can be dropped.
    fn drop(self) {
        let Desk { store: _ } = self;
    }
}

impl<S: Alter> Desk<S> {
    ghost use Rattle.std.specs.Prelude.{◌≡◌, ◌≢◌, ◌++◌, List, Err, IfErr, OnOk, OnErr};
    ghost use Rattle.std.specs.Option.{option_copied};
    ghost use Rattle.brk_desk_commands.specs.Commands.{abstract_command};
    ghost use Rattle.brk_desk.specs.Keys.{optional_model_key};
    ghost use Rattle.brk_desk.specs.Booked.{CommandPost};
    ghost use Rattle.brk_desk.specs.CallPosts.{AskPost, DeskAuditPost, OutcomePost};
    ghost use Rattle.brk_desk.specs.Runs.{IsRunWithOutcomes};
    ghost use Rattle.brk_desk.specs.declared.call.Outcome as desk_outcome;
    ghost use Rattle.brk_money.specs.declared.fault.Condition.TheVariants.{NotEmpty};
    ghost use Rattle.brk_money.specs.declared.fault.Fault.TheVariants.{Damaged, Memory};
    ghost use Rattle.brk_view_rows.specs.Queries.{abstract_query};
    ghost use Rattle.std.specs.Fn.{CalledAt};
    ghost use Rattle.brk_ref.specs.Rows.{abstract_holding_row, abstract_cash_row, abstract_trade_row};
    ghost use Rattle.brk_desk_queries.specs.Heads.{AreAccountsOfStatements, IsStatementHeadOfAccount};
    ghost use Rattle.brk_model_explain.specs.BrokerLines.{completed_trades_of_broker};
    ghost use Rattle.brk_explain_rows.specs.Details.{AreDetailsOfAccount, AreDetailsOfBroker, AreDetailsOfHolding, AreDetailsOfTrade};
    ghost use Rattle.brk_model.specs.Run.{IsCallFault};
    ghost use Rattle.brk_model.specs.Statement.{holding_rows_of_account};
    ghost use Rattle.brk_tables_views.specs.Calling.{IsClosureCallWithLot};
    ghost use Rattle.brk_store_transactions.specs.Holds.{ReadPost};
    ghost use Rattle.brk_store.specs.Walked.{CallsClosureWithEachRecord, WalkPost, cash_rows_in_span};

    /// Creates a desk over a store and changes nothing in the store.
    pub fn new(store: Store<S>) -> Desk<S>
        ensures same { result ≡ store }
    {
        Desk { store }
    }

    /// Executes `command` at the clock reading `now` and, if it is accepted, commits it with its
    /// key in one transaction. Returns `Done` with the reply, after the commit; `Again` with the
    /// stored reply, if this same command was accepted before under `key`; or `Refused`: with
    /// refusal 19 if another command was accepted before under `key`, otherwise with the first
    /// reason in the order of the model's checks.
    ///
    /// Fails with `Memory` if an allocation of the desk's own code was refused, otherwise with
    /// `Store`. Any result but `Done` changes nothing in a store that is still open. A crash after
    /// the call exposes a state that a crash before it could expose, or the tables after the
    /// command; after `Done` only the latter.
    ///
    /// Retry after `Memory` on this desk, and after `Store` once the file is opened and adopted
    /// again. A command is accepted at most once under a key; without a key, read the tables first.
    pub fn call(
        &mut self,
        alloc: Global,
        now: Stamp,
        command: &Command,
        key: Option<&Key>,
    ) -> Result<Answer, Fault>
        ensures called { CommandPost S.Store self.old self.new now (abstract_command command.now) (optional_model_key (option_copied key.entry)) result }
    {
        book_command(alloc, &mut self.store, now, command, key)
    }

    /// Returns the view of a query, or the refusal. `Store` may also mean that a lot has no shares,
    /// that the number of lots read exceeds 32 bits, or that a sum overflows or exceeds its limit.
    pub fn ask(&mut self, alloc: Global, query: &Query) -> Planned<View>
        ensures asked { AskPost S.Store self.old self.new (abstract_query query.now) result }
    {
        answer_query(alloc, &mut self.store, query)
    }

    /// Executes the calls in `calls`, in this order, each at its clock reading, and appends one
    /// outcome for each to `out`. A fault of a call, `Memory` or `Store`, does not end the run: it
    /// is the outcome. Fails with `Memory` only, before the first call; the desk and `out` are then
    /// unchanged.
    ///
    /// A crash after the run has returned exposes a state that a crash before the run could expose,
    /// or tables with the changes of every acknowledged command, and of at most one more: one that
    /// returned a fault, and after which no command was acknowledged. It exposes only such tables
    /// if the run acknowledges a command, or if a crash before it could expose only the tables of
    /// the represented base.
    pub fn run(
        &mut self,
        alloc: Global,
        calls: &[(Stamp, Call)],
        out: &mut Vec<Outcome>,
    ) -> Result<(), Fault>
        ensures executed { OnOk result ((outcomes : List desk_outcome.Outcome) × (out.new.items ≡ out.old.items ++ outcomes)
            × IsRunWithOutcomes S.Store self.old self.new calls.now outcomes) }
        ensures fault { OnErr result (result ≡ Err Memory) }
        ensures unchanged { OnErr result ((self.new ≡ self.old) × (out.new.items ≡ out.old.items)) }
    {
        out.reserve(calls.len())?;
        for made in calls {
            let (now, call) = made;
            let outcome = self.execute_call(alloc, *now, call);
            out.push(outcome).unwrap();
        }
        Ok(())
    }

    // A query does not use `now`.
    fn execute_call(&mut self, alloc: Global, now: Stamp, call: &Call) -> Outcome
        ensures executed { OutcomePost S.Store self.old self.new now call.now result }
    {
        match call {
            Call::Do(command, key) => {
                Outcome::from_command_result(self.call(alloc, now, command, key.as_ref()))
            }
            Call::Ask(query) => Outcome::from_query_result(self.ask(alloc, query)),
        }
    }

    /// Audits the database by the conditions of schema 3. Fails with `Damaged` and the first
    /// condition that fails, or with `Memory` or `Store`. Under the disk assumption a desk that
    /// represents a base never returns `Damaged`.
    ///
    /// The result is specified only if the database satisfies
    /// `ConnectionTablesWithThirdSchemaNamesAreDeskTables` (see `Store::audit`), as it does if the
    /// desk represents a base.
    #[tactic(auto, using(crate::proofs::Audits::audits))]
    pub fn audit(&mut self, alloc: Global) -> Result<(), Fault>
        ensures audited { DeskAuditPost S.Store self.old self.new result }
        // The fault is never `Damaged(NotEmpty)`, which only the creation of tables returns.
        ensures condition { IfErr result (λ fault. fault ≢ Damaged NotEmpty) }
    {
        self.store.audit(alloc)
    }

    /// Returns the head of an account's statement, which has its figures that are not rows, or `None`
    /// if the account does not exist: the account's name, its opening balance (CA_OPEN), and the
    /// market value of its holdings at last prices, both in cents. `Store` may also mean that a held
    /// symbol has no last price or that the sum overflows.
    pub fn head(&mut self, alloc: Global, account: Id) -> Result<Option<Head>, Fault>
        ensures read { ReadPost S.Store self.old self.new result (IsStatementHeadOfAccount account) }
        ensures fault { IfErr result IsCallFault }
    {
        Ok(account_head(alloc, &mut self.store, account)?)
    }

    /// Returns the ids of all accounts, or of those of a customer, ascending. Refuses an unknown
    /// customer with `NoCustomer`.
    pub fn statement_accounts(
        &mut self,
        alloc: Global,
        customer: Option<Id>,
    ) -> Planned<Vec<Id>, CallFault>
        ensures { ReadPost S.Store self.old self.new result (AreAccountsOfStatements customer) }
    {
        statement_accounts(alloc, &mut self.store, customer)
    }

    /// Returns the facts that `brk explain` prints of a trade, or `None` if the trade does not
    /// exist: the trade with its account, security and status changes, and its results if it is
    /// completed. `Store` may also mean that this trade, or one that opened a lot of which it
    /// closed shares, has no price, or that the number or the sum of the account's cash rows before
    /// it overflows.
    pub fn trade_details(
        &mut self,
        alloc: Global,
        trade: Id,
    ) -> Result<Option<TradeDetails>, CallFault>
        ensures { ReadPost S.Store self.old self.new result (AreDetailsOfTrade trade) }
    {
        gather_trade(alloc, &mut self.store, trade)
    }

    /// Returns the row of an account and its holding summaries, sorted by symbol, ascending, each
    /// with the last price of its symbol, in cents; `None` if the account does not exist. `Store`
    /// may also mean that a symbol has no last price.
    pub fn account_details(
        &mut self,
        alloc: Global,
        account: Id,
    ) -> Result<Option<AccountDetails>, CallFault>
        ensures { ReadPost S.Store self.old self.new result (AreDetailsOfAccount account) }
    {
        gather_account(alloc, &mut self.store, account)
    }

    /// Returns the facts that `brk explain` prints of the holding of an account in a security: the
    /// rows of both; the completed trades, in the order of completion; every lot that they opened,
    /// also if it was closed, in the same order, each with its changes by other trades, in the
    /// order of completion; the number of shares, below 0 if sold short; and the last price, in
    /// cents. Refuses with `NoAccount`, then with `NoSecurity`. `Store` may also mean that the
    /// security has no last price, or that a trade that changed one of these lots has no price.
    pub fn holding_details(
        &mut self,
        alloc: Global,
        account: Id,
        symbol: &Symbol,
    ) -> Planned<HoldingDetails, CallFault>
        ensures { ReadPost S.Store self.old self.new result (AreDetailsOfHolding account symbol.now) }
    {
        gather_holding(alloc, &mut self.store, account, symbol)
    }

    /// Returns the row of a broker and the number of its accounts, or `None` if the broker does not
    /// exist.
    pub fn broker_details(
        &mut self,
        alloc: Global,
        broker: Id,
    ) -> Result<Option<BrokerDetails>, CallFault>
        ensures { ReadPost S.Store self.old self.new result (AreDetailsOfBroker broker) }
    {
        gather_broker(alloc, &mut self.store, broker)
    }

    /// Passes the completed trades of a broker's accounts to a visitor, sorted by the stamp of
    /// completion, then by id, ascending. Fails with `Cause` and the visitor's error, or with
    /// `Failed` and a fault, after a prefix of the trades. Does not check that the broker exists.
    pub fn visit_broker_trades<E, V: Visitor<TradeRow, E>>(
        &mut self,
        alloc: Global,
        broker: Id,
        visitor: &mut V,
    ) -> Result<(), WalkError<E>>
        requires ready { V.ready visitor.old }
        ensures ready { V.ready visitor.new }
        ensures leads { V.leads visitor.old visitor.new }
        ensures walked { WalkPost S.Store self.old self.new abstract_trade_row
            (λ t. completed_trades_of_broker t broker) V.takes V.stops visitor.old visitor.new result }
    {
        visit_broker_trades::<S, E, V>(alloc, &mut self.store, broker, visitor)
    }

    /// Passes the cash rows of an account with stamps from `from` to `to`, both included, to a
    /// visitor, sorted by stamp, then by number (CM_ID), ascending. Fails like
    /// `visit_broker_trades`. Does not check that the account exists.
    pub fn visit_cash_rows<E, V: Visitor<CashRow, E>>(
        &mut self,
        account: Id,
        from: Stamp,
        to: Stamp,
        visitor: &mut V,
    ) -> Result<(), WalkError<E>>
        requires ready { V.ready visitor.old }
        ensures ready { V.ready visitor.new }
        ensures leads { V.leads visitor.old visitor.new }
        ensures walked { WalkPost S.Store self.old self.new abstract_cash_row
            (cash_rows_in_span account from to) V.takes V.stops visitor.old visitor.new result }
    {
        self.store
            .visit_cash_rows::<E, V>(account, from, to, visitor)
    }

    /// Passes the lots of an account to a visitor, sorted by symbol, then by opening stamp, then by
    /// trade id, ascending. Fails like `visit_broker_trades`. Does not check that the
    /// account exists.
    pub fn visit_lots<E, V: Visitor<HoldingRow, E>>(
        &mut self,
        account: Id,
        visitor: &mut V,
    ) -> Result<(), WalkError<E>>
        requires ready { V.ready visitor.old }
        ensures ready { V.ready visitor.new }
        ensures leads { V.leads visitor.old visitor.new }
        ensures walked { WalkPost S.Store self.old self.new abstract_holding_row
            (λ t. holding_rows_of_account t account) V.takes V.stops visitor.old visitor.new result }
    {
        self.store.visit_lots::<E, V>(account, visitor)
    }

    /// Calls a closure with each cash row of an account with a stamp from `from` to `to`, both
    /// included, sorted by stamp, then by number (CM_ID), ascending. Fails with the closure's first
    /// error, or with a fault as an error of type `E`, after a prefix of the rows. Does not check
    /// that the account exists.
    pub fn walk_cash<E: From<Fault>, F: FnMut(&CashRow) -> Result<(), E> + Drop>(
        &mut self,
        account: Id,
        from: Stamp,
        to: Stamp,
        call: F,
    ) -> Result<(), E>
        requires callable { F.IsAlwaysCallable call }
        ensures called { CallsClosureWithEachRecord S.Store self.old self.new abstract_cash_row
            (cash_rows_in_span account from to) (CalledAt F.FnMut) E.from_gives call result }
    {
        self.store.walk_cash::<E, F>(account, from, to, call)
    }

    /// Calls a closure with each lot of an account and its symbol, sorted by symbol, then by
    /// opening stamp, then by trade id, ascending. Fails like `walk_cash`. Does not check that the
    /// account exists.
    pub fn walk_lots<E: From<Fault>, F: FnMut(&str, &Lot) -> Result<(), E> + Drop>(
        &mut self,
        account: Id,
        call: F,
    ) -> Result<(), E>
        requires callable { F.IsAlwaysCallable call }
        ensures called { CallsClosureWithEachRecord S.Store self.old self.new abstract_holding_row
            (λ t. holding_rows_of_account t account) (IsClosureCallWithLot F.FnMut) E.from_gives call result }
    {
        self.store.walk_lots::<E, F>(account, call)
    }

    /// Returns the store of the desk and changes nothing in it.
    pub fn into_store(self) -> Store<S>
        ensures same { result ≡ self }
    {
        let Desk { store } = self;
        store
    }
}
