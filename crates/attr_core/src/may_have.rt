//! The attributes that an assign of a description may specify.

ghost use Rattle.std.specs.Prelude.{◌≡◌, ◌++◌, [], ◌∷◌, Some, codes, length, option_and_then, option_map};
ghost use Rattle.attr_core.specs.Domains.{domains_form};
ghost use Rattle.attr_core.specs.inner.MayHave.{SaysWhatHostsMayHave, domains_listed, noreach_listed, partners_listed, sets_listed};
ghost use Rattle.attr_core.specs.NoReach.{noreach_form};
ghost use Rattle.attr_core.specs.OwnTables.{Declared, kind_numbered, table_form};
ghost use Rattle.attr_core.specs.Partners.{partners_form};
ghost use Rattle.attr_core.specs.Tainting.{labels_of, tainting_form};
ghost use Rattle.table_core.specs.Tables.{text_at};

/// An assign specifies the attribute that its table lists if and only if its host may have it. For
/// the templates that are not named here, a host may have every attribute.
pub fn accepts_exactly_allowed_attributes()
    ensures tainting { SaysWhatHostsMayHave tainting_form (λ hosts earlier a. sets_listed (labels_of (earlier ++ a ∷ [])) a.table) }
    ensures partners { SaysWhatHostsMayHave partners_form (λ hosts earlier a. partners_listed hosts a.table) }
    ensures domains { SaysWhatHostsMayHave domains_form (λ hosts earlier a. option_map Some (domains_listed a.table)) }
    ensures no_reach { SaysWhatHostsMayHave noreach_form (λ hosts earlier a. noreach_listed hosts a.table) }
    ensures table { (d : Declared) → d.table.kinds ≡ length d.words
        → SaysWhatHostsMayHave (table_form d) (λ hosts earlier a. option_and_then (kind_numbered d.words) (text_at (codes "kind") a.table)) }
{}
