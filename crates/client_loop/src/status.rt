ghost use Rattle.std.specs.Prelude.{◌≡◌};
ghost use Rattle.client_loop.specs.Clients.{awaits_input};

/// How a client stands.
#[derive(Clone, Copy)]
pub struct ClientStatus {
    /// Whether its session is over. What it sends then is not heard.
    pub over: bool,
    /// Whether it may have sent whole requests that are not answered yet.
    pub more: bool,
    /// How many bytes of answers are withheld from it.
    pub withheld: usize,
}

impl ClientStatus {
    /// Whether its next bytes may be read: its session goes on, and all that it has asked is answered and sent. So it holds no more than
    /// one request that is not whole, and the answers of one turn.
    pub fn awaits_input(&self) -> bool
        ensures { result ≡ awaits_input self.now }
    {
        !self.over && !self.more && self.withheld == 0
    }
}
