// What the expansion tells.
ghost use Rattle.std.specs.Prelude.{◌≡◌, ℕ, List, Option};
ghost use Rattle.std.specs.List.{All};
ghost use Rattle.slonik_tokens.specs.declared.token.Token.{Token};
ghost use Rattle.slonik_expand.specs.Expansion.{Making, Made, expansion_of};
ghost use Rattle.slonik_expand.specs.Uses.{IsNoUse};

/// No `@name` is among the tokens that come out.
pub fn no_use_comes_out()
    ensures { (names : List ℕ → Option (List ℕ)) (left : ℕ) (tokens : List Token) (making : Making)
        → expansion_of names left tokens ≡ Made making → All IsNoUse making.out }
{}
