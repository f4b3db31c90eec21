ghost use Rattle.event_graph.specs.Live.{IsLive};
ghost use Rattle.event_graph.specs.Network.{IsGraph};
ghost use Rattle.line_base.specs.declared.event.Parts.{Parts};
ghost use Rattle.live_check.specs.MoreTokens.{MoreTokensNeverLater};
ghost use Rattle.live_check.specs.Order.{HasOrder};

/// A law of the definitions: the stations of a live graph have an order in which every arc without a token goes
/// upwards.
///
/// It runs nothing: its contract is the law. `rank` finds such an order.
pub fn live_graphs_have_an_order()
    ensures { (g : Parts) → IsGraph g → IsLive g → HasOrder g }
{}

/// The law *More tokens, never later*: a live graph that gets more tokens on some arcs stays live,
/// and no date of its least solution gets later.
///
/// It runs nothing: its contract is the law.
pub fn more_tokens_never_later()
    ensures { MoreTokensNeverLater }
{}
