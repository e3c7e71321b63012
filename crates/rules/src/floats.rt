// The greater and the smaller of two f64. Not std's: of two that compare equal, as 0 and -0, those give either, and the definition names one.
#![tactic(auto, unfolding(model::specs::Numbers::fmin, model::specs::Numbers::fmax))]

ghost use Rattle.std.specs.Prelude.{◌≡◌};
ghost use Rattle.model.specs.Numbers.{fmin, fmax};

// The greater, x if equal. No NaN reaches it.
pub fn max(x: f64, y: f64) -> f64
    ensures { result ≡ fmax x y }
{
    if x < y { y } else { x }
}

// The smaller, x if equal. No NaN reaches it.
pub fn min(x: f64, y: f64) -> f64
    ensures { result ≡ fmin x y }
{
    if y < x { y } else { x }
}
