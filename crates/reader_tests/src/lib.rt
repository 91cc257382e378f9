//! What is read of files, items and sites, and what a site's world answers: each call once where it is done, and what no template or reply shows, as the places of
//! front matter, the key that a configuration is refused for, the codes of values and the groups of items. The other rows stand in `tests/`.
#![tactic(auto)]

#[cfg(test)]
mod addresses;
#[cfg(test)]
mod archive_pages;
#[cfg(test)]
mod configuration;
#[cfg(test)]
mod data;
#[cfg(test)]
mod dates;
#[cfg(test)]
mod file_names;
#[cfg(test)]
mod front_matter;
#[cfg(test)]
mod items;
#[cfg(test)]
mod kept_sites;
#[cfg(test)]
mod looks;
#[cfg(test)]
mod page_counts;
#[cfg(test)]
mod page_paths;
#[cfg(test)]
mod paged_sites;
#[cfg(test)]
mod sites;
#[cfg(test)]
mod yaml;
