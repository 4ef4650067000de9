use off_base::Ip4;
use off_defs::Kind;
use off_tree::TreeFault;

/// Why a clerk's command is refused: the first of the command's rules that is broken.
#[derive(Clone, Copy, PartialEq, Eq)]
pub enum Rule {
    /// There is no such subscriber.
    NoSubscriber,
    /// There is no such class.
    NoClass,
    /// A modem belongs to the subscriber.
    HasModems,
    /// A modem has the class.
    ClassInUse,
    /// The pool has an address of another pool, and this is the least such pool's number.
    PoolOverlap(u32),
    /// The pool's first address is above its last, or it has more than 4,096 addresses.
    PoolSize,
    /// The relay is another pool's, and this is the least such pool's number.
    RelayTaken(u32),
    /// A lease of this address would lose its pool, and it's the least such address.
    PoolHasLeases(Ip4),
    /// The settings aren't good.
    Tree(TreeFault),
    /// An import of this number was done with another kind or another body.
    BatchDiffers(u64),
    /// The key has no row.
    NoRow,
    /// There are as many rows of the kind as there may be.
    Limit(Kind, u32),
    /// A value of the site is out of its range: 1, its address is 0.0.0.0; 2, its secret has no
    /// bytes; 3, the time of a lease isn't 60 to 604,800 seconds; 4, the time zone isn't -86,400 to
    /// 86,400 seconds.
    Site(u8),
    /// There is no such hub.
    NoHub,
    /// The hub is a pool's, and this is the least such pool's number.
    HubInUse(u32),
    /// The pool has an address of another pool for devices, and this is the least such pool's
    /// number.
    DeviceOverlap(u32),
}
