ghost use Rattle.std.specs.List.{flat_map};
ghost use Rattle.std.specs.Prelude.{◌≡◌, length, All};
ghost use Rattle.date_causes.specs.Caused.{IsOfPlant, IsPlaced, IsWritable};
ghost use Rattle.date_causes.specs.Chain.{HasArc};
ghost use Rattle.date_causes.specs.WhyText.{cause_word, link_words, link_line, share_words, share_lines, why_text};
ghost use Rattle.event_graph.specs.Network.{stations};
ghost use Rattle.outside_io.specs.Outgoing.{Pushed, stream};

use crate::kind::{kind_of, word_of};
use crate::link::{Cause, Link};
use event_graph::Graph;
use line_base::Items;
use outside_io::{Outgoing, Sink};
use plant_model::{LineNumbers, Plant};

/// A chain of causes, with what its text takes beside the plant and the plant's graph.
#[derive(Drop)]
pub struct Chain {
    /// The chain, from its beginning on.
    pub links: Items<Link>,
    /// What the links add at each station.
    pub shares: Vec<u64>,
    /// The numbers of the plant's arcs.
    pub numbers: LineNumbers,
}

/// Writes the line of a link at the station with this label, whose cause has this word.
fn write_words<K: Sink>(out: &mut Outgoing, sink: &mut K, label: &[u8], link: Link, cause: &[u8])
    ensures { Pushed (stream (K.shown sink.old) out.old) (stream (K.shown sink.new) out.new)
        (link_words label.now link.job link.date cause.now link.added) }
{
    out.push(sink, label);
    out.push(sink, b" ");
    out.push_number(sink, link.job as u64);
    out.push(sink, b" ");
    out.push_number(sink, link.date);
    out.push(sink, b" ");
    out.push(sink, cause);
    out.push(sink, b" ");
    out.push_number(sink, link.added);
    out.push(sink, b"\n");
}

/// The word of the cause of a link.
fn cause_word(plant: &Plant, numbers: &LineNumbers, graph: &Graph, link: Link) -> &'static [u8]
    requires of_plant { IsOfPlant plant.now numbers.now graph.now }
    requires arc { HasArc graph.now link }
    ensures { result.now ≡ cause_word plant.now link.cause }
{
    match link.cause {
        Cause::DemandDate => b"date",
        Cause::Start => b"start",
        Cause::Along(a) => word_of(kind_of(plant, numbers, graph, a)),
    }
}

/// Writes the lines of all links.
fn write_links<K: Sink>(
    out: &mut Outgoing,
    sink: &mut K,
    plant: &Plant,
    numbers: &LineNumbers,
    graph: &Graph,
    links: &[Link],
)
    requires of_plant { IsOfPlant plant.now numbers.now graph.now }
    requires links { All (IsPlaced graph.now) links.now }
    ensures { Pushed (stream (K.shown sink.old) out.old) (stream (K.shown sink.new) out.new)
        (flat_map (link_line plant.now) links.now) }
{
    for link in links {
        let word = cause_word(plant, numbers, graph, *link);
        write_words(out, sink, graph.label(link.station), *link, word);
    }
}

/// Writes the line of a share of the station with this label, if it is more than 0.
fn write_share<K: Sink>(out: &mut Outgoing, sink: &mut K, label: &[u8], sum: u64)
    ensures { Pushed (stream (K.shown sink.old) out.old) (stream (K.shown sink.new) out.new)
        (share_words label.now sum) }
{
    if sum == 0 {
        return;
    }
    out.push(sink, b"share ");
    out.push(sink, label);
    out.push(sink, b" ");
    out.push_number(sink, sum);
    out.push(sink, b"\n");
}

/// Writes the lines of the shares of all stations.
fn write_shares<K: Sink>(out: &mut Outgoing, sink: &mut K, graph: &Graph, shares: &[u64])
    requires { length shares.now ≡ stations graph.now }
    ensures { Pushed (stream (K.shown sink.old) out.old) (stream (K.shown sink.new) out.new)
        (share_lines graph.now shares.now) }
{
    for t in 0..graph.stations() {
        write_share(out, sink, graph.label(t), shares[t as usize]);
    }
}

/// Writes the whole text.
pub fn write_chain<K: Sink>(
    out: &mut Outgoing,
    sink: &mut K,
    plant: &Plant,
    graph: &Graph,
    chain: &Chain,
)
    requires { IsWritable plant.now graph.now chain.now }
    ensures { Pushed (stream (K.shown sink.old) out.old) (stream (K.shown sink.new) out.new)
        (why_text plant.now chain.now.links) }
{
    let links = chain.links.as_slice();
    write_links(out, sink, plant, &chain.numbers, graph, links);
    write_shares(out, sink, graph, chain.shares.as_slice());
}
