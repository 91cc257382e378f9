//! The feed of a site, its template and the text that it comes to, and its sitemap.
#![tactic(auto)]

mod feed;
mod sitemap;

pub use feed::feed_body;
pub use sitemap::{MapPage, MapPages, sitemap_body};
