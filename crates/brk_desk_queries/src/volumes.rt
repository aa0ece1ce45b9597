//! The view of the brokers' volumes in a sector.

ghost use Rattle.std.specs.Prelude.{◌≡◌, ◌++◌, ◌∷◌, [], bytes_eq, filter, flat_map, map};
ghost use Rattle.brk_ref.specs.Rows.{abstract_request_row};
ghost use Rattle.brk_desk_queries.specs.QueryResults.{AnswersQueryAsModel};
ghost use Rattle.brk_desk_queries.specs.Volumes.{is_sector_request_of_broker, is_symbol_in_sector, brokers_of_name_in_sector};
ghost use Rattle.brk_desk_queries.specs.Volumes.{requests_with_row_if_of_broker_in_sector, volumes_of_brokers_in_sector};
ghost use Rattle.brk_model.specs.Queries.{VolumeOf};
ghost use Rattle.brk_ref.specs.Records.{abstract_broker_row};
ghost use Rattle.brk_store_transactions.specs.Holds.{ReadPost};
ghost use Rattle.brk_store_reads.specs.ReadSequences.{ReadSequencePost};
ghost use Rattle.brk_view_rows.specs.Volume as volume;

use brk_money::{CallFault, Id, Planned};
use brk_ref::{BrokerRow, Name, RequestRow, Symbol};
use brk_store::Store;
use brk_view_rows::{BrokerNames, BrokerVolume, View, broker_volume, total_bid_value};
use sqlite::Alter;
use std::alloc::Global;

fn is_in_sector<S: Alter>(
    store: &mut Store<S>,
    symbol: &Symbol,
    sector: &Name,
) -> Result<bool, CallFault>
    ensures { ReadPost S.Store store.old store.new result (λ is t. is ≡ is_symbol_in_sector t sector.now symbol.now) }
{
    match store.security(symbol)? {
        Some(security) => Ok(security.sector.as_str() == sector.as_str()),
        None => Ok(false),
    }
}

// Appends a copy of `row` if it is a request of `broker` for a security of the sector.
fn append_sector_request<S: Alter>(
    store: &mut Store<S>,
    sector: &Name,
    broker: Id,
    row: &RequestRow,
    found: &mut Vec<RequestRow>,
) -> Result<(), CallFault>
    ensures { ReadSequencePost S.Store store.old store.new result (λ _ t. found.new.items
        ≡ requests_with_row_if_of_broker_in_sector t sector.now broker row.now found.old.items) }
{
    if row.broker != broker {
        return Ok(());
    }
    if !is_in_sector(store, &row.symbol, sector)? {
        return Ok(());
    }
    let symbol = row.symbol.clone()?;
    found.push(RequestRow {
        trade: row.trade,
        kind: row.kind,
        symbol,
        qty: row.qty,
        bid: row.bid,
        broker: row.broker,
    })?;
    Ok(())
}

// Returns copies of the requests of `broker` for securities of the sector.
fn sector_requests<S: Alter>(
    alloc: Global,
    store: &mut Store<S>,
    sector: &Name,
    requests: &[RequestRow],
    broker: Id,
) -> Result<Vec<RequestRow>, CallFault>
    ensures { ReadSequencePost S.Store store.old store.new result (λ found t. map abstract_request_row found.items
        ≡ filter (is_sector_request_of_broker t sector.now broker) (map abstract_request_row requests.now)) }
{
    let mut found = Vec::new(alloc);
    for row in requests {
        append_sector_request(store, sector, broker, row, &mut found)?;
    }
    Ok(found)
}

// Appends nothing if the broker has no request in the sector. `found` is specified only if
// `requests` are all pending requests, in the order of their table.
fn append_volume<S: Alter>(
    alloc: Global,
    store: &mut Store<S>,
    sector: &Name,
    requests: &[RequestRow],
    row: &BrokerRow,
    found: &mut Vec<BrokerVolume>,
) -> Result<(), CallFault>
    ensures { ReadSequencePost S.Store store.old store.new result (λ _ t. map abstract_request_row requests.now ≡ t.requests → found.new.items
        ≡ found.old.items ++ volumes_of_brokers_in_sector t sector.now (abstract_broker_row row.now ∷ [])) }
{
    let mine = sector_requests(alloc, store, sector, requests, row.broker.id)?;
    if mine.is_empty() {
        return Ok(());
    }
    let name = row.broker.name.clone()?;
    let volume = total_bid_value(&mine);
    found.push(BrokerVolume {
        broker: row.broker.id,
        name,
        volume,
    })?;
    Ok(())
}

fn append_volumes_of_name<S: Alter>(
    alloc: Global,
    store: &mut Store<S>,
    sector: &Name,
    requests: &[RequestRow],
    name: &Name,
    found: &mut Vec<BrokerVolume>,
) -> Result<(), CallFault>
    ensures { ReadPost S.Store store.old store.new result (λ _ t. map abstract_request_row requests.now ≡ t.requests → found.new.items
        ≡ found.old.items ++ volumes_of_brokers_in_sector t sector.now (filter (λ b. bytes_eq b.name name.now) t.brokers)) }
{
    let rows = store.brokers_named(alloc, name)?;
    for row in &rows {
        append_volume(alloc, store, sector, requests, row, found)?;
    }
    Ok(())
}

// Returns the volumes of the brokers with the names. Reads the pending requests once for all
// brokers.
fn named_volumes<S: Alter>(
    alloc: Global,
    store: &mut Store<S>,
    sector: &Name,
    names: &[Name],
) -> Result<Vec<BrokerVolume>, CallFault>
    ensures { ReadPost S.Store store.old store.new result (λ found t. found.items
        ≡ map (volume.volume_of_broker_in_sector t sector.now) (flat_map (brokers_of_name_in_sector t sector.now) names.now)) }
{
    let requests = store.all_trade_requests(alloc)?;
    let mut found = Vec::new(alloc);
    for name in names {
        append_volumes_of_name(alloc, store, sector, &requests, name, &mut found)?;
    }
    Ok(found)
}

/// Returns the view of the volumes in a sector, in cents, of the brokers with the names `names`
/// that have a pending request in it, sorted by volume, descending, then by name and id, ascending.
/// The volume is the sum of quantity times bid price over these requests. Never refuses.
pub fn volume_view<S: Alter>(
    alloc: Global,
    store: &mut Store<S>,
    sector: &Name,
    names: &BrokerNames,
) -> Planned<View, CallFault>
    ensures { ReadPost S.Store store.old store.new result (AnswersQueryAsModel (VolumeOf sector.now names.now)) }
{
    let names = names.names();
    let found = named_volumes(alloc, store, sector, names)?;
    match broker_volume(alloc, found) {
        Ok(view) => Ok(Ok(view)),
        Err(_) => Err(CallFault::Memory),
    }
}
