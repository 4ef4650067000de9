ghost use Rattle.std.specs.Prelude.{◌≡◌, ◌≤◌, codes};
ghost use Rattle.off_drill_rules.specs.Rows.{mac, address, moment};

use off_base::{Ip4, Mac, Moment, Secret};

/// The moment before the first modem's.
pub const BEGINS_AT: u64 = 1_700_000_000;

/// 10.0.0.2, the office's own address.
pub const SERVER: Ip4 = Ip4(0x0a00_0002);

/// 10.64.0.1, the relay of all modems.
pub const RELAY: Ip4 = Ip4(0x0a40_0001);

/// What the CMTS shares with the office.
pub fn secret() -> Secret
    ensures { result ≡ codes "drill" }
{
    Secret::read(b"drill").unwrap()
}

/// When modem `i` does all that it does.
pub fn moment_of(i: u32) -> Moment
    ensures { result.0 ≡ moment i }
{
    Moment(BEGINS_AT + u64::from(i))
}

/// The hardware address of modem `i`.
pub fn mac_of(i: u32) -> Mac
    ensures { result ≡ mac i }
{
    Mac([
        2,
        0,
        0,
        (i / 65_536 % 256) as u8,
        (i / 256 % 256) as u8,
        (i % 256) as u8,
    ])
}

/// The address that modem `i` is to have.
pub fn address_of(i: u32) -> Ip4
    requires { i ≤ 4000 }
    ensures { result ≡ address i }
{
    Ip4(0x0a40_0fff + i)
}
