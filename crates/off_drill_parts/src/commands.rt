ghost use Rattle.std.specs.Prelude.{◌≡◌, ◌≤◌, length, IfOk};
ghost use Rattle.off_base.specs.Tree.{leaf};
ghost use Rattle.off_base.specs.Setting.{tree_of};
ghost use Rattle.off_drill_rules.specs.Rows.{site, flow, class, pool, subscriber, modem};
ghost use Rattle.off_drill_parts.specs.Commands.{put_hub, put_class, put_pool};
ghost use Rattle.off_drill_parts.specs.Commands.{put_subscriber, put_modem};

use crate::rows::{RELAY, SERVER, mac_of, secret};
use off_base::{Bytes, Ip4, NoMemory, Setting, Settings, Short};
use off_defs::{Class, Modem, Pool, SharedSettings, Site, Subscriber};
use off_orders::Command;
use std::alloc::Global;

/// Puts the one hub.
pub fn put_hub() -> Command
    ensures { result ≡ put_hub }
{
    Command::PutHub(
        0,
        Site {
            server: SERVER,
            secret: secret(),
            offset: 0,
            lease: 86_400,
            log: Ip4(0),
        },
    )
}

/// Puts the one class of service.
pub fn put_class(alloc: Global) -> Result<Command, NoMemory>
    ensures { IfOk result (λ command. command ≡ put_class) }
{
    let mut settings = Settings::new(alloc);
    settings.push(flow(alloc, 24, 1, [0x00, 0x98, 0x96, 0x80])?)?;
    settings.push(flow(alloc, 25, 2, [0x05, 0xf5, 0xe1, 0x00])?)?;
    let name = short("gold");
    let settings = SharedSettings::new(alloc, settings)?;
    Ok(Command::PutClass(1, Class { name, settings }))
}

/// Puts the one pool.
pub fn put_pool() -> Command
    ensures { result ≡ put_pool }
{
    Command::PutPool(
        1,
        Pool {
            first: Ip4(0x0a40_1000),
            last: Ip4(0x0a40_1fff),
            prefix: 20,
            router: RELAY,
            relay: RELAY,
        },
        0,
    )
}

/// Puts the subscriber of modem `i`.
pub fn put_subscriber(i: u32) -> Command
    ensures { result ≡ put_subscriber i }
{
    Command::PutSubscriber(
        i,
        Subscriber {
            active: i % 10 != 0,
            cpes: 2,
            name: short("drill"),
        },
    )
}

/// Puts modem `i`.
pub fn put_modem(i: u32) -> Command
    ensures { result ≡ put_modem i }
{
    Command::PutModem(
        mac_of(i),
        Modem {
            subscriber: i,
            class: 1,
            serial: short(""),
        },
    )
}

// A service flow: its reference, the bits that provision, admit and activate it, and its greatest
// rate (CM-SP-MULPIv3.1, annex C.2.2).
fn flow(alloc: Global, code: u8, reference: u8, rate: [u8; 4]) -> Result<Setting, NoMemory>
    ensures { IfOk result (λ setting. tree_of setting ≡ flow code reference rate) }
{
    let mut parts = Settings::new(alloc);
    parts.push(leaf(alloc, 1, &[0, reference])?)?;
    parts.push(leaf(alloc, 6, &[7])?)?;
    parts.push(leaf(alloc, 8, &rate)?)?;
    Ok(Setting::Group { code, parts })
}

fn leaf(alloc: Global, code: u8, text: &[u8]) -> Result<Setting, NoMemory>
    ensures { IfOk result (λ setting. tree_of setting ≡ leaf code text.now) }
{
    let mut value = Bytes::new(alloc);
    value.push_all(text)?;
    Ok(Setting::Leaf { code, value })
}

// A text of the drill's own, which is short.
fn short(text: &str) -> Short
    requires { length text.now ≤ 64 }
    ensures { result ≡ text.now }
{
    Short::read(text.as_bytes()).unwrap()
}
