//! The template of an invariant: one of the ten, or one that the description declares.
ghost use Rattle.std.specs.Prelude.{◌≡◌, option_map, map, find};
ghost use Rattle.std.specs.Str.{bytes_eq};
ghost use Rattle.desc_core.specs.Choices.{OwnTable, chosen};
ghost use Rattle.desc_core.specs.inner.ChoiceView.{choice_view};
ghost use Rattle.desc_form.specs.inner.RawView.{template_view};

use attr_core::Template;
use desc_form::RawTemplate;

/// One of the ten templates, or a declared one.
#[derive(Clone, Copy)]
pub(crate) enum Choice<'w, 'a> {
    OneOfTen(Template),
    OwnTable(&'w RawTemplate<'a>),
}

/// Returns the template of a name: one of the ten, otherwise the first one that is declared under
/// it.
pub(crate) fn chosen<'w, 'a>(templates: &'w [RawTemplate<'a>], name: &str) -> Option<Choice<'w, 'a>>
    ensures { option_map choice_view result ≡ chosen (map template_view templates.now) name.now }
{
    match Template::named(name) {
        Some(template) => Some(Choice::OneOfTen(template)),
        None => declared(templates, name),
    }
}

/// Returns the first template that is declared under the name.
fn declared<'w, 'a>(templates: &'w [RawTemplate<'a>], name: &str) -> Option<Choice<'w, 'a>>
    ensures { option_map choice_view result
        ≡ option_map OwnTable (find (λ t. bytes_eq name.now t.name) (map template_view templates.now)) }
{
    for template in templates {
        if name == template.name {
            return Some(Choice::OwnTable(template));
        }
    }
    None
}
