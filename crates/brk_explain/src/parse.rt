//! Requests for explanations, and their words on a command line.

ghost use Rattle.std.specs.Prelude.{◌∷◌, IfOk};
ghost use Rattle.brk_explain.specs.Requests.{abstract_explain_request};
ghost use Rattle.brk_model_explain.specs.Explain as model;
ghost use Rattle.brk_model.specs.Parse.{read_and_wrap};
ghost use Rattle.brk_ref.specs.Fields.{ParsesAs, texts_of_fields};

use brk_money::{Id, Planned, Refusal};
use brk_ref::{Symbol, parse_id};
use std::alloc::{AllocError, Global};

/// A request for an explanation: of a trade, an account, a holding or a broker.
#[derive(Drop)]
pub enum ExplainRequest {
    /// The trade with this id.
    Trade(Id),
    /// The account with this id.
    Account(Id),
    /// The holding of an account in the security with a symbol.
    Holding { account: Id, symbol: Symbol },
    /// The broker with this id.
    Broker(Id),
}

fn parse_single_id(words: &[&[u8]]) -> Result<Id, Refusal>
    ensures { ParsesAs (λ id. id) result (model.read_single_id (texts_of_fields words.now)) }
{
    let [id] = words else {
        return Err(Refusal::BadText);
    };
    match parse_id(id) {
        Some(id) => Ok(id),
        None => Err(Refusal::BadText),
    }
}

fn parse_trade_request(words: &[&[u8]]) -> Result<ExplainRequest, Refusal>
    ensures { ParsesAs abstract_explain_request result (read_and_wrap model.TradeOf model.read_single_id (texts_of_fields words.now)) }
{
    match parse_single_id(words) {
        Ok(id) => Ok(ExplainRequest::Trade(id)),
        Err(refusal) => Err(refusal),
    }
}

fn parse_account_request(words: &[&[u8]]) -> Result<ExplainRequest, Refusal>
    ensures { ParsesAs abstract_explain_request result (read_and_wrap model.AccountOf model.read_single_id (texts_of_fields words.now)) }
{
    match parse_single_id(words) {
        Ok(id) => Ok(ExplainRequest::Account(id)),
        Err(refusal) => Err(refusal),
    }
}

fn parse_broker_request(words: &[&[u8]]) -> Result<ExplainRequest, Refusal>
    ensures { ParsesAs abstract_explain_request result (read_and_wrap model.BrokerOf model.read_single_id (texts_of_fields words.now)) }
{
    match parse_single_id(words) {
        Ok(id) => Ok(ExplainRequest::Broker(id)),
        Err(refusal) => Err(refusal),
    }
}

fn parse_holding_request(alloc: Global, words: &[&[u8]]) -> Planned<ExplainRequest, AllocError>
    ensures { IfOk result (λ read. ParsesAs abstract_explain_request read (model.read_holding_request (texts_of_fields words.now))) }
{
    let [account, symbol] = words else {
        return Ok(Err(Refusal::BadText));
    };
    let Some(account) = parse_id(account) else {
        return Ok(Err(Refusal::BadText));
    };
    let Some(symbol) = Symbol::parse(alloc, symbol)? else {
        return Ok(Err(Refusal::BadText));
    };
    Ok(Ok(ExplainRequest::Holding { account, symbol }))
}

// `kind` is the first word, `words` has the others.
#[tactic(auto, unfolding(brk_model_explain::specs::Explain::read_explain_request))]
fn parse_request_of_kind(
    alloc: Global,
    kind: &[u8],
    words: &[&[u8]],
) -> Planned<ExplainRequest, AllocError>
    ensures { IfOk result (λ read. ParsesAs abstract_explain_request read (model.read_explain_request (kind.now ∷ texts_of_fields words.now))) }
{
    if kind == b"trade".as_slice() {
        return Ok(parse_trade_request(words));
    }
    if kind == b"account".as_slice() {
        return Ok(parse_account_request(words));
    }
    if kind == b"holding".as_slice() {
        return parse_holding_request(alloc, words);
    }
    if kind == b"broker".as_slice() {
        return Ok(parse_broker_request(words));
    }
    Ok(Err(Refusal::BadText))
}

/// Reads a request from the words `trade ID`, `account ID`, `holding ACCOUNT SYMBOL` or `broker
/// ID`. Refuses all others with `BadText`.
#[tactic(auto, unfolding(brk_model_explain::specs::Explain::read_explain_request))]
pub fn parse_explain(alloc: Global, words: &[&[u8]]) -> Planned<ExplainRequest, AllocError>
    ensures { IfOk result (λ read. ParsesAs abstract_explain_request read (model.read_explain_request (texts_of_fields words.now))) }
{
    let [kind, rest @ ..] = words else {
        return Ok(Err(Refusal::BadText));
    };
    parse_request_of_kind(alloc, kind, rest)
}
