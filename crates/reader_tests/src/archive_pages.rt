// Archives of posts that are made up: how many there may be, and how long their paths.
use site_base::{ItemName, List, Memory, Sequence, SitePath, Text, Value};
use std::alloc::Global;
use tag_archives::{ArchiveError, ArchivePost, ArchiveWord, archives};

// What comes of a post.
#[derive(Clone, Copy, PartialEq)]
enum Made {
    Archives(u64),
    BadPath,
    TooMany,
}

fn terms_from_zero(alloc: Global, count: i64) -> Result<List, Memory> {
    let mut terms = List::new(alloc);
    for number in 0..count {
        terms.push(Value::Int(number))?;
    }
    Ok(terms)
}

// One term of so many letters.
fn long_term(alloc: Global, letters: usize) -> Result<List, Memory> {
    let mut terms = List::new(alloc);
    let text = "a".repeat(alloc, letters)?;
    terms.push(Value::Text(Text::from_string(text)?))?;
    Ok(terms)
}

fn post_with(alloc: Global, terms: List) -> Result<ArchivePost, Memory> {
    match SitePath::read(alloc, "a") {
        Ok(path) => Ok(ArchivePost {
            name: ItemName { path, part: 0 },
            terms,
        }),
        Err(_) => Err(Memory),
    }
}

fn made_of(alloc: Global, terms: List, word: ArchiveWord) -> Result<Made, Memory> {
    let mut posts = Sequence::new(alloc);
    posts.push(post_with(alloc, terms)?)?;
    match archives(alloc, &posts, word) {
        Ok(made) => Ok(Made::Archives(made.len())),
        Err(ArchiveError::BadPath) => Ok(Made::BadPath),
        Err(ArchiveError::TooMany) => Ok(Made::TooMany),
        Err(ArchiveError::Memory) => Err(Memory),
    }
}

fn made_of_numbers(alloc: Global, count: i64) -> Result<Made, Memory> {
    made_of(alloc, terms_from_zero(alloc, count)?, ArchiveWord::Tag)
}

fn made_of_letters(alloc: Global, letters: usize, word: ArchiveWord) -> Result<Made, Memory> {
    made_of(alloc, long_term(alloc, letters)?, word)
}

#[test]
fn counts_archives(rt: HostRuntime) {
    let rows = [
        (0, Made::Archives(0)),
        (100_000, Made::Archives(100_000)),
        (100_001, Made::TooMany),
    ];
    for (count, made) in rows {
        assert!(rt;
            made_of_numbers(rt.alloc(), count) == Ok(made),
            "at {count}"
        );
    }
}

#[test]
fn measures_paths(rt: HostRuntime) {
    let rows = [
        (1009, ArchiveWord::Tag, Made::Archives(1)),
        (1010, ArchiveWord::Tag, Made::BadPath),
        (1004, ArchiveWord::Category, Made::Archives(1)),
        (1005, ArchiveWord::Category, Made::BadPath),
    ];
    for (letters, word, made) in rows {
        assert!(rt;
            made_of_letters(rt.alloc(), letters, word) == Ok(made),
            "at {letters}"
        );
    }
}
