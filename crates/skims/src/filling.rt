//! Skims, node by node from near to far.

ghost use Rattle.std.specs.Prelude.{◌≡◌, ◌≢◌, ℕ, ◌+◌, ◌*◌, ◌/◌, ◌<◌, ◌≤◌, None, length, filter, sum_by, slice_index, if◌then◌else◌};
ghost use Rattle.std.specs.List.{range_with_len};
ghost use Rattle.definitions.specs.declared.choice.Choice.TheVariants.{Walk, Wait};
ghost use Rattle.definitions.specs.declared.limits.TheConstants.{ARC_LIMIT, COST_LIMIT, K_LIMIT};
ghost use Rattle.definitions.specs.Network.{IsWellFormed, weight_of, out_arcs};
ghost use Rattle.definitions.specs.Reach.{IsReach};
ghost use Rattle.definitions.specs.Labels.{SolvesLabels, IsOrder};
ghost use Rattle.definitions.specs.Choice.{is_attractive, attractive_arcs, choice_at};
ghost use Rattle.network.specs.Cities.{arc_kind_of};
ghost use Rattle.skims.specs.Parts.{part_along, part_by_choice};
ghost use Rattle.skims.specs.Skims.{AreSkims, AreNearLabels, is_of_part, part_in, skim_at, terms_of, wait_of_part};
ghost use Rattle.skims.specs.Filling.{AreWithinLabels, IsFilledTo, IsSkimFor};

use crate::part::Part;
use crate::skim::Skim;
use definitions::Choice;
use lp_model::Network;
use network::{ArcKind, CityNet};
use strategy::{attractive, choose};

/// Fills in the skims of all nodes that reach a goal.
#[tactic(auto, using(crate::proofs::FillLemmas::all_filled, crate::proofs::FillLemmas::skims_near))]
pub fn fill_rows(
    city: &CityNet,
    goal: u32,
    labels: &[u64],
    reached: &[bool],
    order: &[u32],
    rows: &mut [Option<Skim>],
)
    requires reach { IsReach city.now.net goal reached.now }
    requires labels { SolvesLabels city.now.net goal reached.now labels.now }
    requires order { IsOrder reached.now labels.now order.now }
    requires row_per_node { length rows.old ≡ city.now.net.nodes }
    ensures row_per_node { length rows.new ≡ city.now.net.nodes }
    ensures skims { AreSkims city.now goal reached.now labels.now rows.new }
    ensures near { AreNearLabels city.now goal reached.now labels.now rows.new }
{
    city.net().rules();
    forget(rows);
    for place in 0..order.len() {
        fill_next(city, goal, labels, reached, order, place, rows);
    }
}

// Takes all skims away.
fn forget(rows: &mut [Option<Skim>])
    ensures none { (node : ℕ) → skim_at rows.new node ≡ None }
    ensures count { length rows.new ≡ length rows.old }
{
    for node in 0..rows.len() {
        rows[node] = None;
    }
}

// Fills in the skim of the node at a place of the order.
fn fill_next(
    city: &CityNet,
    goal: u32,
    labels: &[u64],
    reached: &[bool],
    order: &[u32],
    place: usize,
    rows: &mut [Option<Skim>],
)
    requires well_formed { IsWellFormed city.now.net }
    requires label_per_node { length labels.now ≡ city.now.net.nodes }
    requires mark_per_node { length reached.now ≡ city.now.net.nodes }
    requires labels { SolvesLabels city.now.net goal reached.now labels.now }
    requires order { IsOrder reached.now labels.now order.now }
    requires place { place < length order.now }
    requires so_far { IsFilledTo city.now goal reached.now labels.now order.now place rows.old }
    ensures next { IsFilledTo city.now goal reached.now labels.now order.now (place + 1) rows.new }
{
    let node = order[place];
    inside(city, goal, labels, reached, order, place, rows, node);
    let skim = skim_for(city, goal, labels, reached, rows, node);
    rows[node as usize] = Some(skim);
}

// A node of the order is one of the network, and what is filled in so far is within the labels.
#[tactic(auto, using(crate::proofs::FillLemmas::order_below))]
fn inside(
    city: &CityNet,
    goal: u32,
    labels: &[u64],
    reached: &[bool],
    order: &[u32],
    place: usize,
    rows: &[Option<Skim>],
    node: u32,
)
    requires well_formed { IsWellFormed city.now.net }
    requires mark_per_node { length reached.now ≡ city.now.net.nodes }
    requires labels { SolvesLabels city.now.net goal reached.now labels.now }
    requires order { IsOrder reached.now labels.now order.now }
    requires place { place < length order.now }
    requires so_far { IsFilledTo city.now goal reached.now labels.now order.now place rows.now }
    requires node { node ≡ slice_index order.now place }
    ensures node { node < city.now.net.nodes }
    ensures within { AreWithinLabels city.now labels.now rows.now }
{}

// The skim of a node that follows from those of other nodes.
#[tactic(auto, using(crate::proofs::StepLemmas::skim_of))]
fn skim_for(
    city: &CityNet,
    goal: u32,
    labels: &[u64],
    reached: &[bool],
    rows: &[Option<Skim>],
    node: u32,
) -> Skim
    requires well_formed { IsWellFormed city.now.net }
    requires label_per_node { length labels.now ≡ city.now.net.nodes }
    requires mark_per_node { length reached.now ≡ city.now.net.nodes }
    requires row_per_node { length rows.now ≡ city.now.net.nodes }
    requires labels { SolvesLabels city.now.net goal reached.now labels.now }
    requires node { node < city.now.net.nodes }
    requires within { AreWithinLabels city.now labels.now rows.now }
    ensures value { IsSkimFor city.now goal reached.now labels.now rows.now node result }
{
    let choice = choose(city.net(), labels, reached, goal, node);
    Skim {
        label: labels[node as usize],
        walk: part_for(city, goal, labels, reached, rows, node, choice, Part::Walk),
        wait: part_for(city, goal, labels, reached, rows, node, choice, Part::Wait),
        ride: part_for(city, goal, labels, reached, rows, node, choice, Part::Ride),
        board: part_for(city, goal, labels, reached, rows, node, choice, Part::Board),
    }
}

// A part at a node by the choice there. It is no more than the node's label.
#[tactic(auto, using(crate::proofs::FillLemmas::part_within))]
fn part_for(
    city: &CityNet,
    goal: u32,
    labels: &[u64],
    reached: &[bool],
    rows: &[Option<Skim>],
    node: u32,
    choice: Choice,
    part: Part,
) -> u64
    requires well_formed { IsWellFormed city.now.net }
    requires label_per_node { length labels.now ≡ city.now.net.nodes }
    requires mark_per_node { length reached.now ≡ city.now.net.nodes }
    requires row_per_node { length rows.now ≡ city.now.net.nodes }
    requires labels { SolvesLabels city.now.net goal reached.now labels.now }
    requires node { node < city.now.net.nodes }
    requires within { AreWithinLabels city.now labels.now rows.now }
    requires choice { choice ≡ choice_at city.now.net goal reached.now labels.now node }
    ensures value { result ≡ part_by_choice city.now.net reached.now labels.now (terms_of city.now part) (part_in rows.now part) node choice }
{
    let _most = labels[node as usize];
    part_by(city, goal, labels, reached, rows, node, choice, part) as u64
}

// A part at a node by the choice there, in a type that any mean fits.
fn part_by(
    city: &CityNet,
    goal: u32,
    labels: &[u64],
    reached: &[bool],
    rows: &[Option<Skim>],
    node: u32,
    choice: Choice,
    part: Part,
) -> u128
    requires well_formed { IsWellFormed city.now.net }
    requires label_per_node { length labels.now ≡ city.now.net.nodes }
    requires mark_per_node { length reached.now ≡ city.now.net.nodes }
    requires row_per_node { length rows.now ≡ city.now.net.nodes }
    requires labels { SolvesLabels city.now.net goal reached.now labels.now }
    requires node { node < city.now.net.nodes }
    requires choice { choice ≡ choice_at city.now.net goal reached.now labels.now node }
    ensures value { result ≡ part_by_choice city.now.net reached.now labels.now (terms_of city.now part) (part_in rows.now part) node choice }
{
    match choice {
        Choice::Stop => 0,
        Choice::Walk { arc } => {
            walked(city, goal, labels, reached, node, arc);
            along(city, rows, part, arc)
        }
        Choice::Wait { count, weight } => {
            waited(city, goal, labels, reached, node, count, weight);
            mean(city, labels, reached, rows, node, weight, part)
        }
    }
}

// A free arc that is chosen is one of the network.
#[tactic(auto, using(crate::proofs::StepLemmas::walked_there))]
fn walked(city: &CityNet, goal: u32, labels: &[u64], reached: &[bool], node: u32, arc: u32)
    requires chosen { Walk arc ≡ choice_at city.now.net goal reached.now labels.now node }
    ensures there { arc < length city.now.net.arcs }
{}

// Where passengers wait, the attractive arcs have weight together.
#[tactic(auto, using(crate::proofs::StepLemmas::waited_weight))]
fn waited(
    city: &CityNet,
    goal: u32,
    labels: &[u64],
    reached: &[bool],
    node: u32,
    count: u32,
    weight: u64,
)
    requires labels { SolvesLabels city.now.net goal reached.now labels.now }
    requires node { node < city.now.net.nodes }
    requires chosen { Wait count weight ≡ choice_at city.now.net goal reached.now labels.now node }
    ensures positive { 0 < weight }
{}

// The mean of a part along the attractive arcs of a node, with the wait where that belongs to it.
fn mean(
    city: &CityNet,
    labels: &[u64],
    reached: &[bool],
    rows: &[Option<Skim>],
    node: u32,
    weight: u64,
    part: Part,
) -> u128
    requires label_per_node { length labels.now ≡ city.now.net.nodes }
    requires mark_per_node { length reached.now ≡ city.now.net.nodes }
    requires row_per_node { length rows.now ≡ city.now.net.nodes }
    requires node { node < city.now.net.nodes }
    requires positive { 0 < weight }
    ensures value { result ≡ (wait_of_part city.now.net part
        + sum_by (λ arc. weight_of city.now.net arc * part_along city.now.net (terms_of city.now part) (part_in rows.now part) arc)
        (attractive_arcs city.now.net reached.now labels.now node)) / weight }
{
    // A node has no more arcs than there may be.
    let _few = city.net().arcs();
    let first = city.net().first(node);
    let many = city.net().out(node).len() as u32;
    let sum = sum_among(city, labels, reached, rows, part, first, many);
    (wait_of(city.net(), part) as u128 + sum) / weight as u128
}

// The sum of a part along the attractive arcs among some that follow one another, by weight.
#[tactic(auto, using(crate::proofs::ArcSums::sum_one_more))]
fn sum_among(
    city: &CityNet,
    labels: &[u64],
    reached: &[bool],
    rows: &[Option<Skim>],
    part: Part,
    first: u32,
    many: u32,
) -> u128
    requires label_per_node { length labels.now ≡ city.now.net.nodes }
    requires mark_per_node { length reached.now ≡ city.now.net.nodes }
    requires row_per_node { length rows.now ≡ city.now.net.nodes }
    requires there { first + many ≤ length city.now.net.arcs }
    requires few { first + many ≤ ARC_LIMIT }
    ensures value { result ≡ sum_by (λ arc. weight_of city.now.net arc * part_along city.now.net (terms_of city.now part) (part_in rows.now part) arc)
        (filter (is_attractive city.now.net reached.now labels.now) (range_with_len first many)) }
    ensures within { result ≤ many * 79228162518972760500000000000 }
{
    let mut sum = 0u128;
    for place in 0..many {
        sum += weighed(city, labels, reached, rows, part, first + place);
    }
    sum
}

// A part along an attractive arc, times its weight; 0 of another arc.
fn weighed(
    city: &CityNet,
    labels: &[u64],
    reached: &[bool],
    rows: &[Option<Skim>],
    part: Part,
    arc: u32,
) -> u128
    requires label_per_node { length labels.now ≡ city.now.net.nodes }
    requires mark_per_node { length reached.now ≡ city.now.net.nodes }
    requires row_per_node { length rows.now ≡ city.now.net.nodes }
    requires arc { arc < length city.now.net.arcs }
    ensures value { result ≡ (if is_attractive city.now.net reached.now labels.now arc
        then weight_of city.now.net arc * part_along city.now.net (terms_of city.now part) (part_in rows.now part) arc else 0) }
    ensures within { result ≤ 79228162518972760500000000000 }
{
    if attractive(city.net(), labels, reached, arc) {
        times(weight_at(city.net(), arc), along(city, rows, part, arc))
    } else {
        0
    }
}

// A weight times a part along an arc.
fn times(weight: u32, amount: u128) -> u128
    requires amount { amount ≤ 18446744074709551615 }
    ensures value { result ≡ weight * amount }
    ensures within { result ≤ 79228162518972760500000000000 }
{
    weight as u128 * amount
}

// The weight of a boarding arc, 0 of a free one.
fn weight_at(net: &Network, arc: u32) -> u32
    requires arc { arc < length net.now.arcs }
    ensures value { result ≡ weight_of net.now arc }
{
    net.arc(arc).weight.unwrap_or(0)
}

// A part along an arc: that of the node to which it leads, and its cost where that belongs to it.
fn along(city: &CityNet, rows: &[Option<Skim>], part: Part, arc: u32) -> u128
    requires row_per_node { length rows.now ≡ city.now.net.nodes }
    requires arc { arc < length city.now.net.arcs }
    ensures value { result ≡ part_along city.now.net (terms_of city.now part) (part_in rows.now part) arc }
    ensures within { result ≤ 18446744074709551615 }
{
    let found = city.net().arc(arc);
    let (head, cost) = (found.head, found.cost);
    let own = cost_if(belongs(part, city.arc_kind(arc)), cost);
    part_at(rows, part, head) as u128 + own as u128
}

// A part at a node, 0 where it has no skim.
fn part_at(rows: &[Option<Skim>], part: Part, node: u32) -> u64
    requires node { node < length rows.now }
    ensures value { result ≡ part_in rows.now part node }
{
    match rows[node as usize] {
        Some(skim) => match part {
            Part::Walk => skim.walk,
            Part::Wait => skim.wait,
            Part::Ride => skim.ride,
            Part::Board => skim.board,
        },
        None => 0,
    }
}

// Whether the cost of an arc of this kind belongs to a part.
fn belongs(part: Part, kind: ArcKind) -> bool
    ensures value { result ≡ is_of_part part kind }
{
    match part {
        Part::Walk => matches!(kind, ArcKind::Access | ArcKind::Egress | ArcKind::Walk),
        Part::Wait => false,
        Part::Ride => matches!(kind, ArcKind::Ride | ArcKind::Dwell),
        Part::Board => matches!(
            kind,
            ArcKind::BoardFirst | ArcKind::BoardLater | ArcKind::Alight
        ),
    }
}

// A cost, where it belongs to a part.
fn cost_if(belongs: bool, cost: u32) -> u32
    ensures value { result ≡ if belongs then cost else 0 }
    ensures within { result ≤ cost }
{
    if belongs { cost } else { 0 }
}

// How much of the wait constant belongs to a part.
fn wait_of(net: &Network, part: Part) -> u64
    ensures value { result ≡ wait_of_part net.now part }
    ensures within { result ≤ K_LIMIT }
{
    match part {
        Part::Wait => net.k(),
        Part::Walk | Part::Ride | Part::Board => 0,
    }
}
