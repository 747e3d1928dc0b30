// The schedule that names the workers in turn.
ghost use Rattle.std.specs.Prelude.{◌≡◌, length};
ghost use Rattle.steps.specs.Turns.{next_turn, turns};

// The worker after one, and after the last the first again.
fn next_turn(workers: u8, w: u8) -> u8
    ensures { result ≡ next_turn workers w }
{
    if (w < 255) && (w + 1 < workers) {
        w + 1
    } else {
        0
    }
}

// Fills a schedule with the workers 0, 1, .. in turn.
pub fn in_turn(workers: u8, schedule: &mut [u8])
    ensures { schedule.new ≡ turns workers (length schedule.old) }
{
    let mut w = 0;
    for byte in schedule {
        *byte = w;
        w = next_turn(workers, w);
    }
}
