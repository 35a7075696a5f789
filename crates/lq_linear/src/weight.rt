//! What rows weigh.

ghost use Rattle.std.specs.Prelude.{◌≡◌, ◌^◌, ◌<◌, ◌*ℤ◌, IfSome};
ghost use Rattle.std.specs.Option.{option_to_list};
ghost use Rattle.lq_linear.specs.Terms.{IsWithin, AreTerms, terms_value};
ghost use Rattle.lq_linear.specs.Row.{signed};
ghost use Rattle.lq_linear.specs.Weight.{scattered, symbol_weight};

/// A number scattered over the numbers below 2^61 - 1.
#[tactic(auto, using(crate::proofs::WeightLemmas::square_fits), unfolding(crate::specs::Weight::scattered))]
fn scatter(number: u64) -> u64
    requires { number < 2 ^ 61 }
    ensures value { result ≡ scattered number }
    ensures below { result < 2 ^ 61 }
{
    let wide = u128::from(number);
    ((wide * wide + 1_152_921_504_606_847_009) % 2_305_843_009_213_693_951) as u64
}

/// What a symbol weighs.
fn weight_of_symbol(symbol: u32) -> i128
    ensures value { result ≡ symbol_weight symbol }
    ensures within { IsWithin (2 ^ 61) result }
{
    i128::from(scatter(scatter(scatter(u64::from(symbol)))))
}

/// A multiple of what a symbol weighs.
fn weight_of_term(symbol: u32, number: i64) -> i128
    requires { IsWithin (2 ^ 16) number }
    ensures value { result ≡ number *ℤ symbol_weight symbol }
    ensures within { IsWithin (2 ^ 77) result }
{
    i128::from(number) * weight_of_symbol(symbol)
}

/// What the terms of a form weigh.
fn weight_of_terms(terms: &[(u32, i64)]) -> i128
    requires { AreTerms terms.now }
    ensures value { result ≡ terms_value symbol_weight terms.now }
    ensures within { IsWithin (2 ^ 81) result }
{
    let mut total = 0;
    for (symbol, number) in terms {
        total += weight_of_term(*symbol, *number);
    }
    total
}

/// What the terms of a form weigh, or what is opposite to them.
#[tactic(auto, using(crate::proofs::WeightLemmas::opposite_value))]
pub(crate) fn weight_of_signed(negated: bool, terms: &[(u32, i64)]) -> i128
    requires { AreTerms terms.now }
    ensures value { result ≡ terms_value symbol_weight (signed negated terms.now) }
    ensures within { IsWithin (2 ^ 81) result }
{
    let weight = weight_of_terms(terms);
    if negated { -weight } else { weight }
}

/// What a first term weighs, if there is one.
pub(crate) fn weight_of_lead(lead: Option<(u32, i64)>) -> i128
    requires { IfSome lead (λ term. IsWithin (2 ^ 16) term.1) }
    ensures value { result ≡ terms_value symbol_weight (option_to_list lead) }
    ensures within { IsWithin (2 ^ 77) result }
{
    match lead {
        None => 0,
        Some((symbol, number)) => weight_of_term(symbol, number),
    }
}
