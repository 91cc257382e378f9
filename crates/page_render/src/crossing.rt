// What threads may share. Nothing runs here: that it is proved shows it.
use crate::PageRenderer;

fn is_shared<T: Send + Sync>() {}

fn renderers_are_shared() {
    is_shared::<PageRenderer>();
}
