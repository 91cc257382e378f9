use crate::building::SETTINGS;
use page_render::PageRenderer;
use site_base::{SiteFault, SitePath};
use site_session::Session;
use std::alloc::Global;
use std::test::Fail;

// 2024-01-01T00:00:00Z
const MOMENT: i64 = 1_704_067_200;

// The first fault of a site of one file.
fn first_fault(alloc: Global, path: &str, text: &str) -> Result<Option<SiteFault>, Fail> {
    let mut session = Session::open(alloc, SETTINGS, MOMENT);
    session.put(SitePath::read(alloc, path)?, text.as_bytes().to_vec(alloc)?)?;
    match session.first_fault(alloc, &PageRenderer::new(alloc)) {
        Ok(fault) => Ok(fault),
        Err(_) => Err("memory")?,
    }
}

#[test]
fn first_faults_are_told(rt: HostRuntime) -> Result<(), Fail> {
    match first_fault(rt.alloc(), "y.html", "---\na: &x 1\n---\n")? {
        Some(fault) => {
            assert_eq!(rt; fault.kind.number(), 5);
            assert_eq!(rt; fault.line, 2);
            assert_eq!(rt; fault.path.text(), "y.html");
        }
        None => Err("no fault")?,
    }
    Ok(())
}

#[test]
fn sound_sites_have_no_fault(rt: HostRuntime) -> Result<(), Fail> {
    assert!(rt; first_fault(rt.alloc(), "y.html", "---\na: 1\n---\n{{ page.a }}")?.is_none());
    Ok(())
}
