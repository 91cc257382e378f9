// What threads may share. Nothing runs here: that it is proved shows it.
use crate::SiteWorld;

fn is_shared<T: Send + Sync>() {}

fn worlds_are_shared<'a>() {
    is_shared::<SiteWorld<'a>>();
}
