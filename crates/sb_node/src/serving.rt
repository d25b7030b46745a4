// A node as what a desk serves.
ghost use Rattle.sb_node.specs.Nodes.{node_state};
ghost use Rattle.sb_node.specs.Serving.{node_origin, StandsFor};
ghost use Rattle.sb_node.specs.Steps.{is_spared};

use crate::Node;
use sb_desk::{Post, Report, Served, Stepped};
use sb_machine::Path;
use sb_outside::Disk;

impl<D: Disk> Served for Node<D> {
    ghost state = { λ n. node_state n };

    ghost stands = { λ n start h. StandsFor n start h };

    ghost origin = { λ n. node_origin n };

    ghost spared = { is_spared };

    fn mark_of(path: &Path) -> u64 {
        sb_engine::mark_of(path)
    }

    fn step_group(&mut self, posts: &mut [Post]) -> Stepped {
        self.make_group(posts);
        let entered = self.take_entered();
        Stepped {
            entered,
            soonest: self.soonest(),
            sizes: self.sizes(),
        }
    }

    fn tally(&self) -> Report {
        self.numbers()
    }

    ghost legal = { λ n start h is. (is.consistent, is.legal) };

    ghost spares = { λ n start h is. is.spares };
}
