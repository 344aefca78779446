//! A refusal of a description: the first condition on descriptions that applies, and its place.

ghost use Rattle.std.specs.Prelude.{◌≡◌, ◌≤◌, length};
ghost use Rattle.desc_form.specs.Refusals.{number, name, refused};

use host_net::Name;

/// A place in a description. Hosts, invariants, the assigns of one invariant, flows and templates
/// are numbered from 1.
#[derive(Clone, Copy, PartialEq, Eq, Debug)]
pub enum Place {
    /// The document as a whole.
    Document,
    /// A host.
    Host(u64),
    /// An invariant.
    Invariant(u64),
    /// An invariant, and one of its assigns.
    Assign(u64, u64),
    /// A flow.
    FlowAt(u64),
    /// A declared template.
    Template(u64),
}

/// The cause of a refusal. The variants are in the order of precedence, and are numbered from 1.
#[derive(Clone, Copy, PartialEq, Eq, Debug)]
pub enum Why {
    /// The file exceeds the size limit of a description.
    TooLong,
    /// The file is not a TOML document.
    NotToml,
    /// The document, a host, an invariant or a template has an unknown key.
    UnknownKey,
    /// A required key is absent.
    MissingKey,
    /// A value has another type than its key requires, the word for answers is unknown, an element
    /// that should be a table is not one, an element of `deny` is not two strings, or a flow is not
    /// two strings, or in version 2 not two or more.
    WrongType,
    /// The version of the description is neither 1 nor 2.
    BadVersion,
    /// The number of hosts, prefixes, invariants or templates exceeds its limit.
    TooMany,
    /// A text in the position of a host name is not a legal name.
    BadName,
    /// Two hosts have the same name.
    DuplicateHost,
    /// An entry of `at` is not a prefix, or is a prefix of length 0.
    BadPrefix,
    /// A prefix has bits set after its length.
    HostBits,
    /// A host has neither a prefix nor the rest mark, or both.
    NoAddress,
    /// Two hosts have the rest mark.
    TwoRests,
    /// Two prefixes share an address.
    Overlap,
    /// An invariant names a template that is neither one of the ten nor declared.
    UnknownTemplate,
    /// An assign or a flow names a host that is not declared.
    UndeclaredHost,
    /// An invariant assigns two attributes to one host.
    DuplicateAssign,
    /// The table of an assign does not specify an attribute of its template.
    BadAttribute,
    /// A flow leads from a host to itself.
    SelfFlow,
    /// A flow is listed twice, regardless of its services.
    DuplicateFlow,
    /// A text after the two names of a flow is not a service.
    BadService,
    /// The number of services of a flow exceeds the limit.
    ManyServices,
    /// A declared template is invalid: its name is illegal or taken, its strategy is unknown, it
    /// has no kinds or too many, a kind is an illegal name or repeated, or the default or a denied
    /// kind is not one of its kinds.
    BadTemplate,
    /// A pair of kinds is denied, but its partner is not: the pair with the default kind at the
    /// offending host.
    NotLawful,
}

impl Why {
    /// Returns the number of the cause, from 1.
    pub fn number(&self) -> u8
        ensures { result ≡ number self.now }
    {
        match self {
            Why::TooLong => 1,
            Why::NotToml => 2,
            Why::UnknownKey => 3,
            Why::MissingKey => 4,
            Why::WrongType => 5,
            Why::BadVersion => 6,
            Why::TooMany => 7,
            Why::BadName => 8,
            Why::DuplicateHost => 9,
            Why::BadPrefix => 10,
            Why::HostBits => 11,
            Why::NoAddress => 12,
            Why::TwoRests => 13,
            Why::Overlap => 14,
            Why::UnknownTemplate => 15,
            Why::UndeclaredHost => 16,
            Why::DuplicateAssign => 17,
            Why::BadAttribute => 18,
            Why::SelfFlow => 19,
            Why::DuplicateFlow => 20,
            Why::BadService => 21,
            Why::ManyServices => 22,
            Why::BadTemplate => 23,
            Why::NotLawful => 24,
        }
    }

    /// Returns the name of the cause, as it is printed.
    pub fn name(&self) -> &str
        ensures text { result.now ≡ name self.now }
        ensures short { length result.now ≤ 15 }
    {
        match self {
            Why::TooLong => "TooLong",
            Why::NotToml => "NotToml",
            Why::UnknownKey => "UnknownKey",
            Why::MissingKey => "MissingKey",
            Why::WrongType => "WrongType",
            Why::BadVersion => "BadVersion",
            Why::TooMany => "TooMany",
            Why::BadName => "BadName",
            Why::DuplicateHost => "DuplicateHost",
            Why::BadPrefix => "BadPrefix",
            Why::HostBits => "HostBits",
            Why::NoAddress => "NoAddress",
            Why::TwoRests => "TwoRests",
            Why::Overlap => "Overlap",
            Why::UnknownTemplate => "UnknownTemplate",
            Why::UndeclaredHost => "UndeclaredHost",
            Why::DuplicateAssign => "DuplicateAssign",
            Why::BadAttribute => "BadAttribute",
            Why::SelfFlow => "SelfFlow",
            Why::DuplicateFlow => "DuplicateFlow",
            Why::BadService => "BadService",
            Why::ManyServices => "ManyServices",
            Why::BadTemplate => "BadTemplate",
            Why::NotLawful => "NotLawful",
        }
    }
}

/// A refusal with its details. `item`, `other` and `name` are 0 or empty if the cause has none.
#[derive(Clone, Copy, Debug)]
pub struct Refusal {
    pub why: Why,
    pub place: Place,
    /// The refused prefix of a host, text in a flow, or pair of a template, from 1.
    pub item: u64,
    /// The earlier host, assign or flow with which this one conflicts, from 1.
    pub other: u64,
    /// The name that no host has.
    pub name: Name,
}

impl Refusal {
    /// Returns a refusal that reports only a place.
    pub fn at(why: Why, place: Place) -> Refusal
        ensures { result ≡ refused why place }
    {
        Refusal {
            why,
            place,
            item: 0,
            other: 0,
            name: Name::none(),
        }
    }

    /// Returns the refusal with the refused item of the place.
    pub fn with_item(self, item: u64) -> Refusal
        ensures { result ≡ record self { item = item } }
    {
        Refusal { item, ..self }
    }

    /// Returns the refusal with the earlier host, assign or flow with which this one conflicts.
    pub fn with_other(self, other: u64) -> Refusal
        ensures { result ≡ record self { other = other } }
    {
        Refusal { other, ..self }
    }

    /// Returns the refusal with the name that no host has.
    pub fn with_name(self, name: Name) -> Refusal
        ensures { result ≡ record self { name = name } }
    {
        Refusal { name, ..self }
    }
}
