// The table of the keys that have a meaning.
ghost use Rattle.std.specs.Prelude.{◌≡◌, option_map};
ghost use Rattle.std.specs.Option.{option_copied};
ghost use Rattle.site_config.specs.Forms.{given};
ghost use Rattle.site_config.specs.Table.{wrong_key};

use crate::form::Form;
use crate::forms::fits;
use crate::settings::setting;
use site_base::Value;

struct Row {
    key: &'static str,
    form: Form,
}

const ROWS: [Row; 21] = [
    Row {
        key: "baseurl",
        form: Form::Text,
    },
    Row {
        key: "url",
        form: Form::Text,
    },
    Row {
        key: "permalink",
        form: Form::Text,
    },
    Row {
        key: "markdown_ext",
        form: Form::Text,
    },
    Row {
        key: "include",
        form: Form::Texts,
    },
    Row {
        key: "exclude",
        form: Form::Texts,
    },
    Row {
        key: "keep_files",
        form: Form::Texts,
    },
    Row {
        key: "collections",
        form: Form::Collections,
    },
    Row {
        key: "defaults",
        form: Form::Scopes,
    },
    Row {
        key: "paginate",
        form: Form::Count,
    },
    Row {
        key: "paginate_path",
        form: Form::PagePath,
    },
    Row {
        key: "excerpt_separator",
        form: Form::Separator,
    },
    Row {
        key: "timezone",
        form: Form::Offset,
    },
    Row {
        key: "future",
        form: Form::Flag,
    },
    Row {
        key: "unpublished",
        form: Form::Flag,
    },
    Row {
        key: "show_drafts",
        form: Form::Flag,
    },
    Row {
        key: "liquid",
        form: Form::Liquid,
    },
    Row {
        key: "make_archives",
        form: Form::Archives,
    },
    Row {
        key: "archive_layout",
        form: Form::Text,
    },
    Row {
        key: "make_feed",
        form: Form::Flag,
    },
    Row {
        key: "make_sitemap",
        form: Form::Flag,
    },
];

/// The first key of the table whose value has another form than the table asks.
pub(crate) fn wrong_key(all: Option<&Value>) -> Option<&'static str>
    ensures { option_copied result ≡ wrong_key (given all.entry) }
{
    let collections = setting("collections", all);
    let wrong = ROWS
        .iter()
        .find(|row| !fits(collections, row.form, setting(row.key, all)));
    match wrong {
        Some(row) => Some(row.key),
        None => None,
    }
}
