//! Templates that a description declares as tables: the kind of a host, given by its word.

ghost use Rattle.std.specs.Prelude.{◌≡◌, ◌≤◌, ◌<◌, All, IfSome, List, is_some, length, map, replicate};
ghost use Rattle.std.specs.List.{position_from};
ghost use Rattle.std.specs.Str.{bytes_eq};
ghost use Rattle.attr_core.specs.inner.AssignView.{given_of};
ghost use Rattle.attr_core.specs.inner.Bad.{first_failing};
ghost use Rattle.attr_core.specs.OwnTables.{Declared, kind_numbered, table_form};
ghost use Rattle.attr_core.specs.inner.OwnTablesWalk.{kind_of_assign, kinds_after};
ghost use Rattle.attr_core.specs.Forms.{bad_assign, invariant_by};
ghost use Rattle.attr_core.specs.laws.FormLaws.{set_said};
ghost use Rattle.host_net.specs.Host.{Host};
ghost use Rattle.toml.specs.View.{table_view};

use crate::assign::Assign;
use crate::kinds::KEYS;
use crate::shapes::of_shape;
use inv_any::AnyInv;
use inv_law::EdgeWise;
use table_core::text_at;
use tmpl_table::TableRule;
use toml::Table;

/// Returns the number of a kind, from 0, given by its word.
pub fn kind_numbered(words: &[&str], word: &str) -> Option<usize>
    ensures value { result ≡ kind_numbered (map (λ known. known.now) words.now) word.now }
    ensures within { IfSome result (λ kind. kind < length words.now) }
{
    place_of(words, word)
}

fn place_of(words: &[&str], word: &str) -> Option<usize>
    ensures { result ≡ position_from (λ known. bytes_eq word.now known.now) 0 words.now }
{
    words.iter().position(|known| word == *known)
}

/// Returns the number of the kind that the table of an assign specifies.
#[tactic(auto, unfolding(crate::specs::inner::OwnTablesWalk::kind_of_assign))]
fn kind_of_assign(words: &[&str], table: &Table) -> Option<usize>
    ensures value { result ≡ kind_of_assign (map (λ known. known.now) words.now) (table_view table.now) }
    ensures within { IfSome result (λ kind. kind < length words.now) }
{
    if !of_shape(table, &KEYS) {
        return None;
    }
    kind_numbered(words, text_at(table, "kind")?)
}

/// Returns the number, from 0, of the first assign whose table specifies no kind of a declared
/// template with these words for its kinds.
pub fn bad_kind(words: &[&str], assigns: &[Assign<'_>]) -> Option<usize>
    ensures { (d : Declared) (hosts : List Host) → d.words ≡ map (λ known. known.now) words.now
        → result ≡ bad_assign (table_form d) hosts (map given_of assigns.now) }
{
    first_without_attribute(words, assigns)
}

fn first_without_attribute(words: &[&str], assigns: &[Assign<'_>]) -> Option<usize>
    ensures { result ≡ first_failing (λ a. is_some (kind_of_assign (map (λ known. known.now) words.now) a.table)) 0
        (map given_of assigns.now) }
{
    for (place, assign) in assigns.iter().enumerate() {
        if kind_of_assign(words, assign.table).is_none() {
            return Some(place);
        }
    }
    None
}

/// Returns the invariant of a declared template, given its rule, which has the default kind at each
/// host, and the words for its kinds.
pub fn read_kinds(rule: TableRule, words: &[&str], assigns: &[Assign<'_>]) -> AnyInv
    requires hosts { All (λ a. a.host < length rule.hosts) assigns.now }
    requires words { rule.table.kinds ≡ length words.now }
    requires few { length words.now ≤ 64 }
    requires fresh { rule.hosts ≡ replicate (length rule.hosts) rule.table.default }
    ensures { (hosts : List Host) → length hosts ≡ length rule.hosts → result
        ≡ invariant_by (table_form (record { words = map (λ known. known.now) words.now; table = rule.table })) hosts
        (map given_of assigns.now) }
{
    let mut rule = rule;
    take_kinds(&mut rule, words, assigns);
    AnyInv::Table(EdgeWise::new(rule))
}

/// Sets the kind of the host of each assign.
fn take_kinds(rule: &mut TableRule, words: &[&str], assigns: &[Assign<'_>])
    requires hosts { All (λ a. a.host < length rule.old.hosts) assigns.now }
    requires words { rule.old.table.kinds ≡ length words.now }
    requires few { length words.now ≤ 64 }
    ensures { rule.new ≡ record rule.old {
      hosts = kinds_after (map (λ known. known.now) words.now) rule.old.hosts (map given_of assigns.now);
    } }
{
    for assign in assigns {
        take_kind(rule, words, assign);
    }
}

/// Sets the kind of the host of the assign, if the assign specifies one.
fn take_kind(rule: &mut TableRule, words: &[&str], assign: &Assign<'_>)
    requires host { assign.now.host < length rule.old.hosts }
    requires words { rule.old.table.kinds ≡ length words.now }
    requires few { length words.now ≤ 64 }
    ensures { rule.new ≡ record rule.old {
      hosts = set_said rule.old.hosts assign.now.host
          (kind_of_assign (map (λ known. known.now) words.now) (given_of assign.now).table);
    } }
{
    if let Some(kind) = kind_of_assign(words, assign.table) {
        rule.set(assign.host, kind as u8);
    }
}
