//! A modem's file, block by block, with its bytes as another program gives them.

use off_base::{Bytes, Ip4, Moment, NoMemory, Secret, Settings, Short};
use off_defs::{SharedSettings, Subscriber};
use off_files::{AddOns, Body, FileTail, block, profile_of, tail};
use off_tlv::{read_settings, spelled_len};
use std::alloc::Global;
use std::test::Fail;

const SECRET: &[u8] = b"secret";

const ADDRESS: Ip4 = Ip4(0x0a40_000a);

// The class `gold`, with the end marker behind it.
const GOLD: &str = "180d01020001060107080400989680190d01020002060107080405f5e100ff";

// An add-on with a flow 5 and a classifier 3 of it.
const ADD_ON: &str = "180701020005060107160701010303020005ff";

// A file: whether the subscriber is active, the number of its add-on where it has one, the moment,
// and the bytes.
const FILES: [(bool, bool, u64, &str); 6] = [
    (
        true,
        false,
        1_700_000_000,
        "030101180d01020001060107080400989680190d01020002060107080405f5e1001201021304e8fe\
         6f8014040a40000a0610636d1983e3444060d699444896e43dc807109afd24602f8462a3cd0efdfe\
         d560e2b7ff000000",
    ),
    (
        true,
        true,
        1_700_000_000,
        "030101180d01020001060107080400989680190d01020002060107080405f5e10012010218070102\
         01050601071607010183030201051304e8fe6f8014040a40000a0610233295d26b270e795d99f590\
         94d90a1b0710a3c02afb6aec320511edfc8442558cd0ff00",
    ),
    (
        false,
        true,
        1_700_000_000,
        "0301001807010200010601071907010200020601071201021304e8fe6f8014040a40000a06100c58\
         fba916fbbe969a68a11ee34a85410710b30839f14a19b02abf11567884f9e97cff000000",
    ),
    (
        false,
        false,
        0,
        "030100180701020001060107190701020002060107120102130483aa7e8014040a40000a06105eae\
         a9339d2f98f9d21d4a9ef1f1314a07107e8dd1565203a2440e8cb79cf5909794ff000000",
    ),
    (
        false,
        false,
        2_085_978_496,
        "03010018070102000106010719070102000206010712010213040000000014040a40000a0610cc0c\
         7b0aec37fa49dde729a1e592fd05071063dc7253700ed0949fe16de218b76ce2ff000000",
    ),
    (
        false,
        false,
        u64::MAX,
        "0301001807010200010601071907010200020601071201021304ffffffff14040a40000a0610182a\
         45496ded440ff7a66a9568fdc32807103cd45c5817642e6b2157c4050e0f56caff000000",
    ),
];

fn bytes_of(alloc: Global, hex: &str) -> Result<Bytes, NoMemory> {
    let mut bytes = Bytes::new(alloc);
    match hex::decode(alloc, hex) {
        Ok(items) => bytes.push_all(items.as_slice())?,
        Err(_) => return Err(NoMemory),
    }
    Ok(bytes)
}

// The settings of a file that has no check.
fn settings_of(alloc: Global, file: &[u8]) -> Result<Settings, NoMemory> {
    match read_settings(alloc, file) {
        Ok(settings) => Ok(settings),
        Err(_) => Err(NoMemory),
    }
}

fn subscriber(active: bool) -> Result<Subscriber, NoMemory> {
    match Short::read(b"Ann") {
        Ok(name) => Ok(Subscriber {
            active,
            cpes: 2,
            name,
        }),
        Err(_) => Err(NoMemory),
    }
}

// The rows that a file is made of.
#[derive(Drop)]
struct Made {
    who: Subscriber,
    class: Settings,
    add_ons: AddOns,
}

fn secret() -> Result<Secret, NoMemory> {
    match Secret::read(SECRET) {
        Some(secret) => Ok(secret),
        None => Err(NoMemory),
    }
}

fn body_of(alloc: Global, made: &Made) -> Result<Body, NoMemory> {
    let secret = secret()?;
    let profile = profile_of(alloc, &made.who, &made.class, &made.add_ons)?;
    match spelled_len(&profile) {
        Some(_) => Body::spell(alloc, &profile, &secret),
        None => Err(NoMemory),
    }
}

// The blocks of a file, joined.
fn blocks_joined(
    alloc: Global,
    body: &Body,
    tail: &FileTail,
    size: u16,
) -> Result<Bytes, NoMemory> {
    let mut file = Bytes::new(alloc);
    let mut out = [0; 1428];
    let size = size.min(1428);
    for n in 1..1000u32 {
        let length = block(body, tail, size, n, &mut out);
        file.push_all(&out[..length])?;
        if length < usize::from(size) {
            return Ok(file);
        }
    }
    Err(NoMemory)
}

fn file_of(alloc: Global, made: &Made, now: u64, size: u16) -> Result<Bytes, NoMemory> {
    let body = body_of(alloc, made)?;
    let tail = tail(&body, Moment(now), ADDRESS, SECRET);
    blocks_joined(alloc, &body, &tail, size)
}

fn settings_in(alloc: Global, hex: &str) -> Result<Settings, NoMemory> {
    let bytes = bytes_of(alloc, hex)?;
    settings_of(alloc, bytes.as_slice())
}

fn gold(alloc: Global, active: bool, has_add_on: bool) -> Result<Made, NoMemory> {
    let mut made = Made {
        who: subscriber(active)?,
        class: settings_in(alloc, GOLD)?,
        add_ons: AddOns::new(alloc),
    };
    if has_add_on {
        made.add_ons.push(0, SharedSettings::new(alloc, settings_in(alloc, ADD_ON)?)?)?;
    }
    Ok(made)
}

// Whether a file has these bytes.
fn is_made(alloc: Global, made: &Made, now: u64, hex: &str) -> Result<bool, NoMemory> {
    let file = file_of(alloc, made, now, 44)?;
    let wanted = bytes_of(alloc, hex)?;
    Ok(file.as_slice() == wanted.as_slice())
}

#[test]
fn files_have_these_bytes(rt: HostRuntime) -> Result<(), Fail> {
    for (active, has_add_on, now, expected) in FILES {
        let made = gold(rt.alloc(), active, has_add_on)?;
        assert!(rt; is_made(rt.alloc(), &made, now, expected)?, "at {now}");
    }
    Ok(())
}
