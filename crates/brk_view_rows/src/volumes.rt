//! The view `volume`: the volumes of brokers in a sector, each the value, at the bid prices, of the
//! pending requests for securities of the sector.

ghost use Rattle.std.specs.Prelude.{◌≡◌, ◌≤◌, Err, IfOk, List, OnErr, filter, map, pos, sum_by};
ghost use Rattle.std.specs.Global.{Vec};
ghost use Rattle.brk_ref.specs.Rows.{abstract_request_row};
ghost use Rattle.brk_model.specs.Lists.{sort_by};
ghost use Rattle.brk_model.specs.Tables.{BrokerRow, Tables};
ghost use Rattle.brk_model.specs.VolumeView.{is_before_by_volume, broker_volume_view};
ghost use Rattle.brk_money.specs.Spelling.{Text};
ghost use Rattle.brk_money.specs.declared.fault.Fault.TheVariants.{Memory};
ghost use Rattle.brk_view_rows.specs.Views.{records_of_view};
ghost use Rattle.brk_view_rows.specs.Volume as volume;
ghost use Rattle.brk_view_rows.specs.Volume.{broker_volume_record, has_name_and_pending_request};
ghost use Rattle.brk_view_rows.specs.Volume.{is_before_by_broker_name, is_before_by_broker_volume, request_value_at_bid};
ghost use Rattle.brk_view_rows.specs.declared.view.View.TheVariants as views;
ghost use Rattle.brk_view_rows.specs.declared.volumes.BrokerVolume.{BrokerVolume};

use crate::ordering::{Ranked, sort_by_rank};
use crate::view::View;
use brk_money::{Fault, Id, Wide};
use brk_ref::{Name, RequestRow};
use std::alloc::Global;
use std::cmp::Ordering;

/// The volume of a broker.
#[derive(Drop)]
pub struct BrokerVolume {
    pub broker: Id,
    pub name: Name,
    /// The value, at their bid prices, of its pending requests in a sector, in cents.
    pub volume: Wide,
}

// By name, then by id, ascending.
#[tactic(auto, using(crate::proofs::Names::names_compared))]
fn before_by_name(one: &BrokerVolume, other: &BrokerVolume) -> bool
    ensures { result ≡ is_before_by_broker_name one.now other.now }
{
    match one.name.as_str().cmp(other.name.as_str()) {
        Ordering::Less => true,
        Ordering::Equal => one.broker.get() < other.broker.get(),
        Ordering::Greater => false,
    }
}

impl Ranked for BrokerVolume {
    ghost before = { is_before_by_broker_volume };

    /// Ranks by volume, descending, then by name and id, ascending.
    fn ranks_before(&self, other: &BrokerVolume) -> bool {
        if self.volume.get() == other.volume.get() {
            return before_by_name(self, other);
        }
        self.volume.get() > other.volume.get()
    }
}

// The limit is the greatest quantity times the greatest price, in cents.
fn bid_value(request: &RequestRow) -> u128
    ensures worth { result ≡ request_value_at_bid (abstract_request_row request.now) }
    ensures limit { result ≤ 99999980000001 }
{
    u128::from(request.qty.get()) * u128::from(request.bid.get())
}

/// Returns the value of the requests at their bid prices, in cents.
pub fn total_bid_value(requests: &[RequestRow]) -> Wide
    ensures { result ≡ pos (sum_by request_value_at_bid (map abstract_request_row requests.now)) }
{
    let mut cents: u128 = 0;
    for request in requests {
        cents += bid_value(request);
    }
    Wide::new(cents as i128)
}

/// Returns the view of the brokers' volumes in a sector (Broker-Volume), sorted by volume,
/// descending, then by name and id, ascending. The caller passes exactly the brokers that have one
/// of the names of the query and a pending request in the sector. Fails with `Memory` only.
pub fn broker_volume(alloc: Global, brokers: Vec<BrokerVolume>) -> Result<View, Fault>
    ensures records { IfOk result (λ view. records_of_view view ≡ map broker_volume_record (sort_by is_before_by_broker_volume brokers.items)) }
    ensures value { IfOk result (λ view. (sorted : Vec BrokerVolume)
        × (view ≡ views.Volume sorted) × (sorted.items ≡ sort_by is_before_by_broker_volume brokers.items)) }
    // If the brokers, with their volumes, are those with one of these names and a pending request
    // in the sector, in any sequence that sorts to the same list, the view equals the specified
    // view.
    ensures view { IfOk result (λ view. (t : Tables) (sector : Text) (names : List Text) (rows : List BrokerRow)
        → brokers.items ≡ map (volume.volume_of_broker_in_sector t sector) rows
        → sort_by (is_before_by_volume t sector) rows ≡ sort_by (is_before_by_volume t sector) (filter (has_name_and_pending_request t sector names) t.brokers)
        → records_of_view view ≡ broker_volume_view t sector names) }
    ensures fault { OnErr result (result ≡ Err Memory) }
{
    let ordered = sort_by_rank(alloc, brokers)?;
    Ok(View::Volume(ordered))
}
