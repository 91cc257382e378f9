// What is wrong with a site, and where.
ghost use Rattle.std.specs.Prelude.{◌≡◌};
ghost use Rattle.site_base.specs.Faults.{fault_number, yaml_number};

use crate::SitePath;

/// Why a text is no value of the YAML subset, or no mapping where one is wanted.
#[derive(Clone, Copy, Debug, PartialEq, Eq)]
pub enum YamlKind {
    Tab,
    Indent,
    Quote,
    Flow,
    Outside,
    Number,
    NoKey,
    Depth,
    NotMapping,
}

impl YamlKind {
    /// The kind's number, from 1 for `Tab`.
    pub fn number(self) -> u8
        ensures { result ≡ yaml_number self }
    {
        match self {
            YamlKind::Tab => 1,
            YamlKind::Indent => 2,
            YamlKind::Quote => 3,
            YamlKind::Flow => 4,
            YamlKind::Outside => 5,
            YamlKind::Number => 6,
            YamlKind::NoKey => 7,
            YamlKind::Depth => 8,
            YamlKind::NotMapping => 9,
        }
    }
}

/// Why a site is refused.
#[derive(Clone, Copy, Debug, PartialEq, Eq)]
pub enum FaultKind {
    TooManyFiles,
    FileTooLong,
    SiteTooLong,
    NotUtf8,
    Yaml(YamlKind),
    Config,
    BadDate,
    Data,
    PathClash,
    LiquidSyntax,
    UnknownTag,
    IncludeMissing,
    LinkMissing,
    FilterArgument,
    DividedByZero,
    Overflow,
    Fraction,
    Nesting,
    RangeTooLong,
    OutputTooLong,
    TreeTooLong,
    DateFormat,
    Unlike,
    Undefined,
    UnknownFilter,
}

impl FaultKind {
    /// The number that replies print after `F`: the kind's place, from 1 for `TooManyFiles`.
    pub fn number(self) -> u8
        ensures { result ≡ fault_number self }
    {
        match self {
            FaultKind::TooManyFiles => 1,
            FaultKind::FileTooLong => 2,
            FaultKind::SiteTooLong => 3,
            FaultKind::NotUtf8 => 4,
            FaultKind::Yaml(_) => 5,
            FaultKind::Config => 6,
            FaultKind::BadDate => 7,
            FaultKind::Data => 8,
            FaultKind::PathClash => 9,
            FaultKind::LiquidSyntax => 10,
            FaultKind::UnknownTag => 11,
            FaultKind::IncludeMissing => 12,
            FaultKind::LinkMissing => 13,
            FaultKind::FilterArgument => 14,
            FaultKind::DividedByZero => 15,
            FaultKind::Overflow => 16,
            FaultKind::Fraction => 17,
            FaultKind::Nesting => 18,
            FaultKind::RangeTooLong => 19,
            FaultKind::OutputTooLong => 20,
            FaultKind::TreeTooLong => 21,
            FaultKind::DateFormat => 22,
            FaultKind::Unlike => 23,
            FaultKind::Undefined => 24,
            FaultKind::UnknownFilter => 25,
        }
    }
}

/// What is wrong with a site, and where: a file, and a line from 1, or 0 where the kind has no line.
#[derive(Drop)]
pub struct SiteFault {
    pub path: SitePath,
    pub line: u64,
    pub kind: FaultKind,
}
