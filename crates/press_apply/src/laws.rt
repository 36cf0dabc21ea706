//! Laws over values that are applied one after another.

ghost use Rattle.std.specs.Prelude.{◌≡◌, List, Some, true};
ghost use Rattle.press_callbacks.specs.Kits.{KitView};
ghost use Rattle.press_site.specs.declared.token.Outcome.{Outcome};
ghost use Rattle.press_site.specs.declared.token.Token.{Token};
ghost use Rattle.press_site.specs.Outcomes.{outcome_of};
ghost use Rattle.press_site.specs.SiteView.{SiteView};
ghost use Rattle.press_apply.specs.Apply.{applied, at_moment, fold_values, site_after};
ghost use Rattle.press_apply.specs.Same.{is_same_value};
ghost use Rattle.press_apply.specs.Tokens.{each_token_once};
ghost use Rattle.press_apply.specs.declared.command.Stamped.{Stamped};
ghost use Rattle.press_apply.specs.declared.value.Value.{Value};
ghost use Rattle.press_apply.specs.declared.value.Value.TheVariants.{Cmd};

/// The first outcome of a token is stored, and stays what it is whatever is applied after it. A
/// later command with that token answers it and moves nothing but the moment, so a list of values
/// gives the same site as the list in which such commands carry their moments alone.
pub fn token_answers_once()
    ensures stored { (kit : KitView) (site : SiteView) (c : Stamped)
        → outcome_of c.token (applied kit site (Cmd c)).0.outcomes
        ≡ Some (applied kit site (Cmd c)).1 }
    ensures stays { (kit : KitView) (site : SiteView) (token : Token) (outcome : Outcome)
        (later : List Value) → outcome_of token site.outcomes ≡ Some outcome
        → outcome_of token (fold_values kit site later).outcomes ≡ Some outcome }
    ensures answers { (kit : KitView) (site : SiteView) (c again : Stamped) (between : List Value)
        → again.token ≡ c.token
        → let after = fold_values kit (applied kit site (Cmd c)).0 between in
        applied kit after (Cmd again) ≡ (at_moment again.at after, (applied kit site (Cmd c)).1) }
    ensures once { (kit : KitView) (values : List Value)
        → site_after kit (each_token_once values) ≡ site_after kit values }
{}

/// Values that count as the same are equal, and each is the same as itself.
pub fn same_values_are_equal()
    ensures same { (v w : Value) → is_same_value v w ≡ true → v ≡ w }
    ensures itself { (v : Value) → is_same_value v v ≡ true }
{}
