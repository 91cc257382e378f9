// Each call over a text or two; tests/dates has the rows.
use site_base::{LAST_MOMENT, Text};
use site_dates::{FIRST_MOMENT, FormatError, format_moment, read_moment, read_offset};

#[test]
fn reads_offsets(rt: HostRuntime) {
    assert!(rt; read_offset("-0530") == Some(-19_800));
    assert!(rt; read_offset("+24:00").is_none());
}

#[test]
fn reads_dates(rt: HostRuntime) {
    assert!(rt; read_moment("2024-01-01", 7200) == Some(1_704_060_000));
    assert!(rt; read_moment("2024-01-01 Z", 7200) == Some(1_704_067_200));
    // The filter of dates takes this for a number of seconds.
    assert!(rt; read_moment("2024", 0).is_none());
}

// What the pattern makes of a moment in the limits, or why it makes nothing.
fn format(rt: &HostRuntime, moment: i64, offset: &str, pattern: &str) -> Result<Text, FormatError> {
    match read_offset(offset) {
        Some(offset) if (FIRST_MOMENT..=LAST_MOMENT).contains(&moment) => {
            format_moment(rt.alloc(), moment, offset, pattern)
        }
        _ => Ok(Text::new(rt.alloc())),
    }
}

fn writes(rt: &HostRuntime, moment: i64, offset: &str, pattern: &str, want: &str) -> bool {
    match format(rt, moment, offset, pattern) {
        Ok(text) => text.as_str() == want,
        Err(_) => false,
    }
}

#[test]
fn writes_moments(rt: HostRuntime) {
    assert!(rt;
        writes(
            &rt,
            1_704_067_200,
            "+02:00",
            "%F %H %z",
            "2024-01-01 02 +0200"
        )
    );
    // The filter of dates leaves what has no pattern as it is.
    assert!(rt; writes(&rt, 0, "Z", "", ""));
    assert!(rt; matches!(format(&rt, 0, "Z", "%Q"), Err(FormatError::BadFormat)));
}
