//! What is read of templates and Markdown: each call once where it is done, and what no output shows, as the keys that are looked up, spans, tokens, what tags
//! are made of, and how often something opens. The other rows stand in `tests/`.
#![tactic(auto)]

#[cfg(test)]
mod blocks;
#[cfg(test)]
mod containers;
#[cfg(test)]
mod definitions;
#[cfg(test)]
mod documents;
#[cfg(test)]
mod expressions;
#[cfg(test)]
mod filters;
#[cfg(test)]
mod inlines;
#[cfg(test)]
mod jekyll;
#[cfg(test)]
mod keyed;
#[cfg(test)]
mod labels;
#[cfg(test)]
mod link_table;
#[cfg(test)]
mod page_links;
#[cfg(test)]
mod pieces;
#[cfg(test)]
mod references;
#[cfg(test)]
mod rows;
#[cfg(test)]
mod shelf;
#[cfg(test)]
mod shelved;
#[cfg(test)]
mod site;
#[cfg(test)]
mod spans;
#[cfg(test)]
mod starts;
#[cfg(test)]
mod tables;
#[cfg(test)]
mod templates;
#[cfg(test)]
mod traces;
#[cfg(test)]
mod values;
