// The search of a pick. It wants no card, only four marks.
#![tactic(auto)]

ghost use Rattle.std.specs.Prelude.{◌≡◌, ◌≤◌};
ghost use Rattle.paper.specs.Card.{round};
ghost use Rattle.picking.specs.Look.{found};

// The first channel after `place`, going round 0 to 3, that is ready.
#[tactic(auto, unfolding(crate::specs::Look::found))]
pub fn look(place: u8, ready: [bool; 4]) -> Option<u8>
    requires { place ≤ 3 }
    ensures { result ≡ found ready (round place) }
{
    for k in 1..5 {
        let n = (place + k) % 4;
        if ready[usize::from(n)] {
            return Some(n);
        }
    }
    None
}
