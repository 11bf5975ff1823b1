// A window over a capture that is read in parts: the bytes that no whole packet has taken yet stand at its front, and the next ones are
// read behind them.
ghost use Rattle.std.specs.Prelude.{◌≡◌, ◌+◌, ◌≤◌, length};
ghost use Rattle.wire.specs.Bytes.{part, over};

// Moves `count` bytes from a place of the window to its front.
pub fn keep(window: &mut [u8], from: usize, count: usize)
    requires { from + count ≤ length window.old }
    ensures { window.new ≡ over window.old 0 (part window.old from count) }
{
    window.copy_within(from..from + count, 0);
}
