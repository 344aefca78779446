//! The ten templates.
ghost use Rattle.std.specs.Prelude.{◌≡◌};
ghost use Rattle.attr_core.specs.Templates.{template_named};

/// The template of an invariant.
#[derive(Clone, Copy, PartialEq, Eq, Debug)]
pub enum Template {
    /// Levels of secrecy, and hosts that are trusted.
    Blp,
    /// Labels, which hosts propagate unless they remove them.
    Tainting,
    /// Hosts that send to no host.
    Sink,
    /// Hosts behind a gateway.
    Gateway,
    /// Subnets and their borders.
    Subnets,
    /// Hosts that receive packets only from some hosts.
    Partners,
    /// Positions in a hierarchy.
    Domains,
    /// A bound on the number of other hosts that a host reaches.
    Dependability,
    /// Hosts that are not joined.
    NonInterference,
    /// Hosts that a host must not reach.
    NoReach,
}

impl Template {
    /// Returns the template with a name, or `None` if there is none.
    #[tactic(auto, unfolding(crate::specs::Templates::template_named))]
    pub fn named(name: &str) -> Option<Template>
        ensures { result ≡ template_named name.now }
    {
        match name {
            "blp" => Some(Template::Blp),
            "tainting" => Some(Template::Tainting),
            "sink" => Some(Template::Sink),
            "gateway" => Some(Template::Gateway),
            "subnets" => Some(Template::Subnets),
            "partners" => Some(Template::Partners),
            "domains" => Some(Template::Domains),
            "dependability" => Some(Template::Dependability),
            "noninterference" => Some(Template::NonInterference),
            "noreach" => Some(Template::NoReach),
            _ => None,
        }
    }
}
