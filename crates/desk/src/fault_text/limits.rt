//! The names of limits, as fault texts print them.

ghost use Rattle.std.specs.Prelude.{◌≡◌};
ghost use Rattle.desk.specs.FaultText.{limit_name, text_limit_name, net_limit_name};

use crate::status::Limit;
use certificate::Limit as TextLimit;
use lp_model::Limit as NetLimit;

/// The name of a limit of a run.
pub fn limit_name(limit: Limit) -> &'static str
    ensures name { result.now ≡ limit_name limit }
{
    match limit {
        Limit::File => "file",
        Limit::Files => "files",
        Limit::Zones => "zones",
        Limit::Units => "units",
        Limit::Weight => "weight",
        Limit::Cost => "cost",
        Limit::Nodes => "nodes",
        Limit::Arcs => "arcs",
        Limit::Document => "document",
    }
}

/// The name of a limit of a text.
pub fn text_limit_name(limit: TextLimit) -> &'static str
    ensures name { result.now ≡ text_limit_name limit }
{
    match limit {
        TextLimit::Nodes => "nodes",
        TextLimit::Arcs => "arcs",
        TextLimit::K => "k",
        TextLimit::Cost => "cost",
        TextLimit::Weight => "weight",
        TextLimit::Units => "units",
        TextLimit::Label => "label",
        TextLimit::Volume => "volume",
        TextLimit::Wait => "wait",
    }
}

/// The name of a limit of a network.
pub fn net_limit_name(limit: NetLimit) -> &'static str
    ensures name { result.now ≡ net_limit_name limit }
{
    match limit {
        NetLimit::Nodes => "nodes",
        NetLimit::Arcs => "arcs",
        NetLimit::K => "k",
        NetLimit::Cost => "cost",
        NetLimit::Weight => "weight",
    }
}
