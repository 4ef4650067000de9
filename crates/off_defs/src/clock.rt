ghost use Rattle.std.specs.Prelude.{◌≡◌};
ghost use Rattle.off_defs.specs.Clock.{time_bytes};

use off_base::Moment;

// The seconds from 1 January 1900 to 1 January 1970 (RFC 868, "The Time").
const SECONDS_BEFORE_1970: u64 = 2_208_988_800;

// The time has 32 bits, and begins again at 0 after the greatest (RFC 868, "The Time").
const SECONDS_IN_A_ROUND: u64 = 4_294_967_296;

/// The time of RFC 868 ("The Time") at a moment: the seconds since 1 January 1900, 00:00 UTC, most
/// significant byte first. The sum stops at the greatest moment.
pub fn time_of_day(now: Moment) -> [u8; 4]
    ensures { result ≡ time_bytes now.0 }
{
    let seconds = now.0.saturating_add(SECONDS_BEFORE_1970) % SECONDS_IN_A_ROUND;
    (seconds as u32).to_be_bytes()
}
