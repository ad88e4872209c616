//! Daemons that are reserved.
ghost use Rattle.std.specs.Prelude.{◌≡◌};
ghost use Rattle.std.specs.Borrow.{sem};
ghost use Rattle.daemon_manager.specs.Lending.{lends_link};

/// A daemon that works for a unit, with the link to it. Who has the value owns the link, and has to give it back: the value
/// can't be dropped, and only the pool takes it apart, by `release` and by `fail`.
pub struct Reserved<L> {
    pub(crate) daemon: u64,
    pub(crate) unit: u32,
    pub(crate) link: L,
}

/// The number of a daemon that is no pool's: a pool has fewer.
const OF_NO_POOL: u64 = u64::MAX;

impl<L> Reserved<L> {
    /// A daemon that is no pool's. A pool that is given it back gives its link, and changes nothing.
    pub fn of_no_pool(unit: u32, link: L) -> Reserved<L>
        ensures { result ≡ record { daemon = OF_NO_POOL; unit = unit; link = link } }
    {
        Reserved {
            daemon: OF_NO_POOL,
            unit,
            link,
        }
    }

    /// The daemon's number.
    pub fn daemon(&self) -> u64
        ensures { result ≡ self.now.daemon }
    {
        self.daemon
    }

    /// The number of the unit that it was reserved for.
    pub fn unit(&self) -> u32
        ensures { result ≡ self.now.unit }
    {
        self.unit
    }

    /// The link to the daemon.
    pub fn link(&mut self) -> &mut L
        ensures* writes_back { sem 𝓛 (lends_link L.row self.entry result) }
        ensures value { result.now ≡ self.old.link }
    {
        &mut self.link
    }
}
