//! Choices, by the labels of a destination and by which nodes reach it.

ghost use Rattle.std.specs.Prelude.{◌≡◌, ◌+◌, ◌*◌, ◌<◌, ◌≤◌, ◌==◌, nat_le, length, filter, sum_by, if◌then◌else◌};
ghost use Rattle.std.specs.List.{range_with_len};
ghost use Rattle.definitions.specs.declared.limits.TheConstants.{ARC_LIMIT, WEIGHT_LIMIT};
ghost use Rattle.definitions.specs.Network.{weight_of};
ghost use Rattle.definitions.specs.Choice.{is_tight, is_attractive, choice_at};
ghost use Rattle.strategy.specs.First.{first_of};

use definitions::Choice;
use lp_model::Network;

/// What passengers at `node` choose on their way to `dest`: the optimal strategy of Spiess and
/// Florian (1989).
///
/// `labels` has the labels of `dest` in ticks and `reached` whether a node reaches it, one of each
/// for every node. The choice is `Stop` at `dest` and where no way leads there. Elsewhere it is
/// the free arc of least number that leads on in just the node's label, where there is one, and
/// otherwise to wait for all boarding arcs that lead on in at most that.
pub fn choose(net: &Network, labels: &[u64], reached: &[bool], dest: u32, node: u32) -> Choice
    requires label_per_node { length labels.now ≡ net.now.nodes }
    requires mark_per_node { length reached.now ≡ net.now.nodes }
    requires node { node < net.now.nodes }
    ensures value { result ≡ choice_at net.now dest reached.now labels.now node }
{
    if node == dest || !reached[node as usize] {
        return Choice::Stop;
    }
    // A node has no more arcs than there may be.
    let _few = net.arcs();
    let first = net.first(node);
    let count = net.out(node).len() as u32;
    match first_tight(net, labels, reached, first, count) {
        Some(arc) => Choice::Walk { arc },
        None => {
            let (count, weight) = attractive_among(net, labels, reached, first, count);
            Choice::Wait { count, weight }
        }
    }
}

/// Whether passengers who wait at the tail of an arc board it.
///
/// So it is where it is a boarding arc, its head reaches the destination, and it leads on in at
/// most the label of its tail. `labels` has the labels of the destination in ticks and `reached`
/// whether a node reaches it, one of each for every node.
pub fn attractive(net: &Network, labels: &[u64], reached: &[bool], arc: u32) -> bool
    requires label_per_node { length labels.now ≡ net.now.nodes }
    requires mark_per_node { length reached.now ≡ net.now.nodes }
    requires arc { arc < length net.now.arcs }
    ensures value { result ≡ is_attractive net.now reached.now labels.now arc }
{
    let arc = net.arc(arc);
    arc.weight.is_some()
        && reached[arc.head as usize]
        && is_at_most(
            labels[arc.head as usize],
            arc.cost,
            labels[arc.tail as usize],
        )
}

// Whether a label and a cost are at most another label. No sum is made, since it might not fit.
fn is_at_most(label: u64, cost: u32, other: u64) -> bool
    ensures value { result ≡ nat_le (label + cost) other }
{
    match other.checked_sub(cost as u64) {
        Some(rest) => label <= rest,
        None => false,
    }
}

// Whether a label and a cost are just another label.
fn is_just(label: u64, cost: u32, other: u64) -> bool
    ensures value { result ≡ (label + cost == other) }
{
    match other.checked_sub(cost as u64) {
        Some(rest) => label == rest,
        None => false,
    }
}

// Whether a free arc leads on, to a node that reaches, in just the label of its tail.
fn tight(net: &Network, labels: &[u64], reached: &[bool], arc: u32) -> bool
    requires label_per_node { length labels.now ≡ net.now.nodes }
    requires mark_per_node { length reached.now ≡ net.now.nodes }
    requires arc { arc < length net.now.arcs }
    ensures value { result ≡ is_tight net.now reached.now labels.now arc }
{
    let arc = net.arc(arc);
    arc.weight.is_none()
        && reached[arc.head as usize]
        && is_just(
            labels[arc.head as usize],
            arc.cost,
            labels[arc.tail as usize],
        )
}

// The first tight arc among some that follow one another.
fn first_tight(
    net: &Network,
    labels: &[u64],
    reached: &[bool],
    first: u32,
    count: u32,
) -> Option<u32>
    requires label_per_node { length labels.now ≡ net.now.nodes }
    requires mark_per_node { length reached.now ≡ net.now.nodes }
    requires there { first + count ≤ length net.now.arcs }
    requires few { first + count ≤ ARC_LIMIT }
    ensures value { result ≡ first_of (filter (is_tight net.now reached.now labels.now) (range_with_len first count)) }
{
    for place in 0..count {
        if tight(net, labels, reached, first + place) {
            return Some(first + place);
        }
    }
    None
}

// How many arcs are attractive among some that follow one another, and their combined weight.
fn attractive_among(
    net: &Network,
    labels: &[u64],
    reached: &[bool],
    first: u32,
    count: u32,
) -> (u32, u64)
    requires label_per_node { length labels.now ≡ net.now.nodes }
    requires mark_per_node { length reached.now ≡ net.now.nodes }
    requires there { first + count ≤ length net.now.arcs }
    requires few { first + count ≤ ARC_LIMIT }
    ensures count { result.0 ≡ length (filter (is_attractive net.now reached.now labels.now) (range_with_len first count)) }
    ensures weight { result.1 ≡ sum_by (weight_of net.now) (filter (is_attractive net.now reached.now labels.now) (range_with_len first count)) }
{
    let mut found = 0u32;
    let mut total = 0u64;
    for place in 0..count {
        let (one, weight) = counted(net, labels, reached, first + place);
        found += one;
        total += weight as u64;
    }
    (found, total)
}

// One and the weight of an attractive arc, twice 0 of another.
fn counted(net: &Network, labels: &[u64], reached: &[bool], arc: u32) -> (u32, u32)
    requires label_per_node { length labels.now ≡ net.now.nodes }
    requires mark_per_node { length reached.now ≡ net.now.nodes }
    requires arc { arc < length net.now.arcs }
    ensures count { result.0 ≡ (if is_attractive net.now reached.now labels.now arc then 1 else 0) }
    ensures weight { result.1 ≡ (if is_attractive net.now reached.now labels.now arc then weight_of net.now arc else 0) }
    ensures one { result.0 ≤ 1 }
    ensures within { result.1 ≤ WEIGHT_LIMIT }
{
    if attractive(net, labels, reached, arc) {
        (1, weight_at(net, arc))
    } else {
        (0, 0)
    }
}

// The weight of a boarding arc, 0 of a free one.
fn weight_at(net: &Network, arc: u32) -> u32
    requires arc { arc < length net.now.arcs }
    ensures value { result ≡ weight_of net.now arc }
    ensures within { result ≤ WEIGHT_LIMIT }
{
    net.arc(arc).weight.unwrap_or(0)
}

#[cfg(test)]
mod tests {
    use super::*;
    use lp_model::NetArc;
    use std::test::Fail;

    fn arc(head: u32, cost: u32, weight: Option<u32>) -> NetArc {
        NetArc {
            tail: 0,
            head,
            cost,
            weight,
        }
    }

    #[test]
    fn passengers_choose_by_labels(rt: HostRuntime) -> Result<(), Fail> {
        // Lines 0 and 1 lead to node 1 in 600 and 900, line 2 to node 2, from which no way leads
        // on; walks 3 and 4 take 900.
        let arcs = vec![in rt.alloc();
            arc(1, 600, Some(6)),
            arc(1, 900, Some(4)),
            arc(2, 1, Some(9)),
            arc(1, 900, None),
            arc(1, 900, None),
        ]?;
        let net = Network::new(3, arcs, 1800)?;
        assert!(rt; net.nodes() == 3 && net.arcs() == 5);
        let reached = [true, true, false];
        // At the label of the walks the first of them is taken; just below it line 0 alone is
        // boarded, and just above both lines, if a walk does not end it.
        let cases = [
            (900, 0, Choice::Walk { arc: 3 }),
            (
                899,
                0,
                Choice::Wait {
                    count: 1,
                    weight: 6,
                },
            ),
            (
                901,
                0,
                Choice::Wait {
                    count: 2,
                    weight: 10,
                },
            ),
            (
                599,
                0,
                Choice::Wait {
                    count: 0,
                    weight: 0,
                },
            ),
            (900, 1, Choice::Stop),
            (900, 2, Choice::Stop),
        ];
        for (label, node, choice) in cases {
            assert!(rt; node < 3);
            let labels = [label, 0, 900];
            assert_eq!(rt;
                choose(&net, &labels, &reached, 1, node),
                choice,
                "{label} at {node}"
            );
        }
        assert!(rt; attractive(&net, &[900, 0, 900], &reached, 1));
        assert!(rt; !attractive(&net, &[899, 0, 899], &reached, 1));
        assert!(rt; !attractive(&net, &[900, 0, 900], &reached, 2));
        assert!(rt; !attractive(&net, &[900, 0, 900], &reached, 3));
        Ok(())
    }
}
