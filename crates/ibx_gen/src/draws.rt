ghost use Rattle.ibx_gen.specs.Draws.{next_draw};
ghost use Rattle.std.specs.Prelude.{◌≡◌};

/// The draw after another, or after the seed: a xorshift generator of 32 bits (Marsaglia, "Xorshift RNGs"). After 0
/// comes 0.
#[tactic(auto, unfolding(crate::specs::Draws::next_draw))]
pub(crate) fn next_draw(draw: u32) -> u32
    ensures { result ≡ next_draw draw }
{
    let first = draw ^ (draw << 13);
    let second = first ^ (first >> 17);
    second ^ (second << 5)
}
