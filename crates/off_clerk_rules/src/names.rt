ghost use Rattle.std.specs.Prelude.{◌≡◌};
ghost use Rattle.off_clerk_rules.specs.Names.{name_text};

/// A field of a body.
#[derive(Clone, Copy, PartialEq, Eq)]
pub enum Name {
    Server,
    Secret,
    Offset,
    Lease,
    Log,
    Active,
    Cpes,
    Name,
    Settings,
    Subscriber,
    Class,
    Serial,
    First,
    Last,
    Prefix,
    Router,
    Relay,
    Hub,
}

impl Name {
    /// The field's key in a JSON object, in ASCII.
    pub fn text(self) -> &'static str
        ensures { result.now ≡ name_text self }
    {
        match self {
            Name::Server => "server",
            Name::Secret => "secret",
            Name::Offset => "offset",
            Name::Lease => "lease",
            Name::Log => "log",
            Name::Active => "active",
            Name::Cpes => "cpes",
            Name::Name => "name",
            Name::Settings => "settings",
            Name::Subscriber => "subscriber",
            Name::Class => "class",
            Name::Serial => "serial",
            Name::First => "first",
            Name::Last => "last",
            Name::Prefix => "prefix",
            Name::Router => "router",
            Name::Relay => "relay",
            Name::Hub => "hub",
        }
    }
}
