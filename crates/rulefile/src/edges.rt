ghost use Rattle.std.specs.Prelude.{◌≡◌, length};
ghost use Rattle.ruleformat.specs.declared.format.Kind.TheVariants as kinds;
ghost use Rattle.ruleformat.specs.EdgeWords.{Indexed, edge_bytes};
ghost use Rattle.ruleformat.specs.Once.{Indexed-prop};

use crate::good_file::GoodFile;
use crate::table::FileTable;
use crate::transitions::Transitions;
use ruleformat::format::{Edge, Kind};

/// The automaton of a file of the edge-list kind, with verdicts of `V`; the closed rule where the
/// check refused the file.
pub type EdgeList<'a, V> = FileTable<'a, Edges<'a>, V>;

/// The edges of a good file of the edge-list kind, six bytes each. `firsts` has the index of each
/// state's first edge, and behind the last state the number of all edges; it is made once.
#[derive(Drop)]
pub struct Edges<'a> {
    good: GoodFile<'a>,
    edges: &'a [[u8; 6]],
    // Kept: a fixed number of places, of which the first ones are used, since a table takes no heap.
    firsts: [usize; 129],
    ghost kind: { good.header.kind ≡ kinds.Edges },
    ghost all: { edges.now ≡ edge_bytes good.file.now good.header },
    ghost indexed: { Indexed good.file.now good.header firsts } by { Indexed-prop good.file.now good.header firsts },
}

impl<'a> Transitions<'a> for Edges<'a> {
    ghost kind = { kinds.Edges };

    ghost file_of = { λ t. t.good };

    fn kind() -> Kind
        ensures { result ≡ kinds.Edges }
    {
        Kind::Edges
    }

    fn of(good: GoodFile<'a>) -> Edges<'a>
        requires { good.header.kind ≡ kinds.Edges }
        ensures { result.good ≡ good.entry }
    {
        let edges = good.entries();
        let mut firsts = [0; 129];
        for (state, first) in firsts[..=good.header.states].iter_mut().enumerate() {
            *first = edges.partition_point(|e| Edge::from(*e).state < state);
        }
        Edges {
            good,
            edges,
            firsts,
        }
    }

    fn good(&self) -> GoodFile<'a> {
        self.good
    }

    // The edges of a state stand together, and their letters rise.
    fn next(&self, state: usize, letter: usize) -> usize {
        let of_state = &self.edges[self.firsts[state]..self.firsts[state + 1]];
        let found = of_state.partition_point(|e| Edge::from(*e).last < letter);
        let Some(bytes) = of_state.get(found) else {
            return state;
        };
        let e = Edge::from(*bytes);
        if e.first <= letter { e.target } else { state }
    }
}
