//! How long a link rests before it connects again.

ghost use Rattle.std.specs.Prelude.{◌≡◌, ◌≤◌, ◌+◌, ◌*◌};
ghost use Rattle.dnp_schedule.specs.BackOff.{rest};

/// The longest rest in milliseconds, before what the place adds.
pub const MAX_REST_MS: u64 = 60_000;

/// How long a link rests that was lost so often, in milliseconds: 1 s, and twice as long after each further loss, a minute at most. Each
/// place adds a 64th, so that stations that were lost together don't connect at one moment.
pub fn rest_ms(losses: u8, place: u8) -> u64
    ensures value { result ≡ rest losses place }
    ensures least { 1000 ≤ result }
    ensures most { result ≤ MAX_REST_MS + 937 * place }
{
    let rest: u64 = match losses {
        0 => 1_000,
        1 => 2_000,
        2 => 4_000,
        3 => 8_000,
        4 => 16_000,
        5 => 32_000,
        _ => MAX_REST_MS,
    };
    rest + rest / 64 * u64::from(place)
}
