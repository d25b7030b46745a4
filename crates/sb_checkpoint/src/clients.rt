// What is kept of clients.
ghost use Rattle.std.specs.Prelude.{OnOk};
ghost use Rattle.sb_snapshot.specs.Lists.{listed64};
ghost use Rattle.sb_snapshot.specs.Replies.{is_next_kept, kept};
ghost use Rattle.sb_checkpoint.specs.Takings.{Takes};

use crate::items::{put_items, put_number};
use crate::{Pieces, Unput};
use sb_repeats::Clients;
use sb_snapshot::KeptPiece;

/// Hands on what is kept of each client, by name.
pub(crate) fn put_clients<P: Pieces>(
    clients: &Clients,
    scratch: &mut Vec<u8>,
    out: &mut P,
) -> Result<(), Unput>
    requires { (listed64 is_next_kept kept).Asks clients.now.clients }
    ensures takes { Takes P.Pieces out.old out.new ((listed64 is_next_kept kept).spell clients.now.clients) result }
    ensures fits { OnOk result ((listed64 is_next_kept kept).Fits clients.now.clients) }
{
    let clients = clients.as_slice();
    put_number(clients.len() as u64, scratch, out)?;
    put_items::<KeptPiece, P>(clients, scratch, out)
}
