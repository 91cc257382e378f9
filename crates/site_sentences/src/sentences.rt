// The sentences: what is wrong, and what to do. `docs/FAULTS.md` has the same, and `.ci/sentences` compares both.
ghost use Rattle.std.specs.Prelude.{◌≡◌, true};
ghost use Rattle.site_sentences.specs.Lines.{is_sentence};

use crate::Failure;
use folder_walk::Reason;
use site_base::{FaultKind, YamlKind};
use site_script::ScriptKind;
use site_words::UsageKind;

/// What is wrong with a site.
pub fn fault_sentence(kind: FaultKind) -> &'static str
    ensures { is_sentence result.now ≡ true }
{
    match kind {
        FaultKind::TooManyFiles =>
            "the folder has more than 50,000 files, and this is the first one over the limit; split the site",
        FaultKind::FileTooLong =>
            "the file is larger than 16 MiB; take it out of the site, and serve it from elsewhere",
        FaultKind::SiteTooLong =>
            "with this file, all files together are larger than 512 MiB; take large files out of the site, and serve them from elsewhere",
        FaultKind::NotUtf8 => "the file is not UTF-8; save it as UTF-8",
        FaultKind::Yaml(kind) => yaml_sentence(kind),
        FaultKind::Config => "a setting here has a value that is not allowed; correct the value",
        FaultKind::BadDate =>
            "the date of this file is not a valid date; write it as YYYY-MM-DD, with HH:MM or HH:MM:SS and an offset after it if you like",
        FaultKind::Data =>
            "the data file cannot be parsed, or has a number that is not whole or is too large; correct the file",
        FaultKind::PathClash =>
            "another output needs a folder with the path of this one; give one of the two another permalink or name",
        FaultKind::LiquidSyntax =>
            "the template has a syntax error here; look for a missing symbol, quote or end tag",
        FaultKind::UnknownTag => "no tag has this name; check the spelling",
        FaultKind::IncludeMissing =>
            "there is no such include; correct its name, or add the file to _includes",
        FaultKind::LinkMissing =>
            "the link does not lead to any page, post or file of the site; correct its name",
        FaultKind::FilterArgument =>
            "a filter has too few or too many arguments, or one of the wrong kind; correct them",
        FaultKind::DividedByZero => "a number is divided by 0; test the divisor first",
        FaultKind::Overflow => "a whole number is out of range; keep it within 64 bits",
        FaultKind::Fraction =>
            "a number with a decimal point is used in a calculation; use whole numbers",
        FaultKind::Nesting => "blocks, includes or values are nested too deeply; use fewer levels",
        FaultKind::RangeTooLong => "a range has more than 1,000,000 numbers; make it shorter",
        FaultKind::OutputTooLong => "a text grows larger than 16 MiB; make it shorter",
        FaultKind::TreeTooLong =>
            "with this file, the built site grows larger than 1 GiB; split the site",
        FaultKind::DateFormat => "a date pattern has an unknown letter after %; use another letter",
        FaultKind::Unlike =>
            "two values of different kinds are compared by size; compare numbers with numbers, and texts with texts",
        FaultKind::Undefined => "no variable has this name; check the spelling, or assign it first",
        FaultKind::UnknownFilter => "no filter has this name; check the spelling",
    }
}

/// Why a text is not read as YAML.
pub fn yaml_sentence(kind: YamlKind) -> &'static str
    ensures { is_sentence result.now ≡ true }
{
    match kind {
        YamlKind::Tab => "a tab is used for indentation, where YAML allows only spaces; use spaces",
        YamlKind::Indent =>
            "the indentation of this line matches no line above it; correct its spaces",
        YamlKind::Quote =>
            "a quoted text lacks its closing quote, has an invalid escape, or has something after the closing quote; correct the quotes",
        YamlKind::Flow =>
            "a list or mapping in brackets lacks its closing bracket, a comma or a colon; correct the brackets",
        YamlKind::Outside =>
            "this form of YAML is not supported; write it another way, or put it in quotes",
        YamlKind::Number => "a whole number needs more than 64 bits; put it in quotes",
        YamlKind::NoKey =>
            "the line has no key, or has a colon in unquoted text; write key: value, or put the text in quotes",
        YamlKind::Depth =>
            "lists and mappings are nested more than 64 levels deep; use fewer levels",
        YamlKind::NotMapping => "only keys with values are allowed here; write key: value",
    }
}

/// What is wrong with a command line.
pub fn usage_sentence(kind: UsageKind) -> &'static str
    ensures { is_sentence result.now ≡ true }
{
    match kind {
        UsageKind::Missing =>
            "there is no command, or a word is not UTF-8; give one of the commands below",
        UsageKind::Command => "the first word is not a command; give one of the commands below",
        UsageKind::Option =>
            "a word is not an option of this command, is given twice, or lacks its number; see the options below",
        UsageKind::Number => "the command needs a number, and a count from 1 to 1,000; give both",
        UsageKind::Moment =>
            "the clock cannot be read, or is before 1970 or after the year 9999; set the clock",
    }
}

/// What is wrong with a line of a session.
pub fn script_sentence(kind: ScriptKind) -> &'static str
    ensures { is_sentence result.now ≡ true }
{
    match kind {
        ScriptKind::LongLine => "the line is longer than 2,048 bytes; make it shorter",
        ScriptKind::NotText => "the line is not UTF-8; write it as UTF-8",
        ScriptKind::Unknown =>
            "the line is not one that a session understands; write scan, put, delete, time, build, links or end",
        ScriptKind::Path =>
            "the path is not a valid path of a site; write a relative path of at most 1,024 bytes, without . or .. as a part",
        ScriptKind::Length =>
            "the length of the file is not a number, or is more than 16,777,216; correct it, or leave the file out",
        ScriptKind::Cut =>
            "the input ends before the file does; send as many bytes as the line says",
        ScriptKind::Limit =>
            "there would be more than 50,000 files, or more than 512 MiB in all; put fewer or smaller files",
        ScriptKind::Clash =>
            "the path is a folder that holds another file, or is inside another file; delete the other file first",
        ScriptKind::Seconds =>
            "the seconds are not a number, or are more than 253,402,214,399; write the seconds since 1970",
    }
}

/// What a run was cut short by.
pub fn failure_sentence(failure: Failure) -> &'static str
    ensures { is_sentence result.now ≡ true }
{
    match failure {
        Failure::Source =>
            "this folder or a file in it cannot be read, or has a name that is not valid in a site; check the names and permissions",
        Failure::List =>
            "_site cannot be listed, and nothing was written; check that it is a folder, and check its names and permissions",
        Failure::Writes(_) =>
            "files of _site could not be written or removed; check their permissions and the free space on the disk, and build again",
        Failure::Input => "standard input cannot be read; check where it comes from",
        Failure::Sink => "standard output cannot be written; check where it goes",
        Failure::Memory => "there is not enough memory; close other programs, or split the site",
    }
}

/// What a call on a folder could not get past.
pub fn reason_sentence(reason: Reason) -> &'static str
    ensures { is_sentence result.now ≡ true }
{
    match reason {
        Reason::Unreadable =>
            "this cannot be read; check its permissions, and those of the folders above it",
        Reason::Unwritable =>
            "this cannot be written or removed; check its permissions and those of its folder, and build again",
        Reason::Name =>
            "this name is not valid in a site; rename it, without control characters, and with at most 1,024 bytes in the whole path",
        Reason::NotUtf8 => "a name in this folder is not UTF-8; rename it",
        Reason::Crowd =>
            "there are more than 1,000,000 names in this folder; move some of them elsewhere",
        Reason::Link =>
            "this, or a folder above it, is a symbolic link, and nothing is written or removed through one; remove the link",
        Reason::NoFolder =>
            "this, or something above it, has to be a folder and is not one; move it elsewhere",
        Reason::Busy =>
            "another run of sitebuild is using this folder; wait until it ends, or stop it",
        Reason::Git =>
            "a file with .git as a part of its path is not written, because Git would take it for its own; give it another permalink or name",
        Reason::LongName =>
            "a part of this path is longer than the file system allows, which is often 255 bytes; give it a shorter permalink or name",
        Reason::NoRoom =>
            "there is no space for this file, or it is larger than is allowed; free some space on the disk, and build again",
    }
}
