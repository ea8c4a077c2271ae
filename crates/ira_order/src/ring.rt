ghost use Rattle.std.specs.Prelude.{◌≡◌, ◌<◌};
ghost use Rattle.ira_order.specs.Ring.{next, prev};

/// The node that a node sends to, in a ring of so many nodes.
pub fn successor(nodes: u8, place: u8) -> u8
    requires { place < nodes }
    ensures value { result ≡ next nodes place }
    ensures place { result < nodes }
{
    if place + 1 < nodes { place + 1 } else { 0 }
}

/// The node that a node receives from, in a ring of so many nodes.
pub fn predecessor(nodes: u8, place: u8) -> u8
    requires { place < nodes }
    ensures value { result ≡ prev nodes place }
    ensures place { result < nodes }
{
    if place == 0 { nodes - 1 } else { place - 1 }
}
