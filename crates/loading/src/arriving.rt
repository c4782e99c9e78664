//! Units that arrive where the arcs that carry them lead.

ghost use Rattle.std.specs.Prelude.{◌≡◌, ◌+◌, ◌<◌, ◌≤◌, ◌==◌, ◌^◌, length, sum_by, slice_index, EachIndex, if◌then◌else◌};
ghost use Rattle.std.specs.List.{range_with_len};
ghost use Rattle.definitions.specs.declared.limits.TheConstants.{ARC_LIMIT, UNIT_LIMIT};
ghost use Rattle.definitions.specs.Network.{head_of};
ghost use Rattle.loading.specs.Arrivals.{flow_among};

use lp_model::Network;

/// Adds the volumes of arcs that follow one another to what has arrived at their heads, in units.
pub fn pass_on(net: &Network, first: u32, many: u32, volumes: &[u64], arrived: &mut [u64])
    requires there { first + many ≤ length net.now.arcs }
    requires few { first + many ≤ ARC_LIMIT }
    requires volume_per_arc { length volumes.now ≡ length net.now.arcs }
    requires number_per_node { length arrived.old ≡ net.now.nodes }
    requires within { EachIndex arrived.old (λ node. slice_index arrived.old node ≤ UNIT_LIMIT) }
    requires units { sum_by (slice_index volumes.now) (range_with_len first many) ≤ UNIT_LIMIT }
    ensures added { EachIndex arrived.new (λ node. slice_index arrived.new node ≡ slice_index arrived.old node + flow_among net.now volumes.now first many node) }
{
    net.rules();
    for place in 0..many {
        pass_on_arc(net, first + place, volumes, arrived);
    }
}

// Adds the volume of an arc to what has arrived at its head.
fn pass_on_arc(net: &Network, arc: u32, volumes: &[u64], arrived: &mut [u64])
    requires arc { arc < length net.now.arcs }
    requires volume_per_arc { length volumes.now ≡ length net.now.arcs }
    requires number_per_node { length arrived.old ≡ net.now.nodes }
    requires fits { slice_index arrived.old (head_of net.now arc) + slice_index volumes.now arc < 2 ^ 64 }
    ensures added { EachIndex arrived.new (λ node. slice_index arrived.new node ≡
        slice_index arrived.old node + (if head_of net.now arc == node then slice_index volumes.now arc else 0)) }
{
    let head = net.arc(arc).head;
    arrived[head as usize] += volumes[arc as usize];
}
