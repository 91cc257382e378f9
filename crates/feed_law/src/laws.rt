// Calls that do nothing, whose clauses are the laws of the feed.
ghost use Rattle.feed_law.specs.FeedItems.{ItemLaw, ItemTextLaw};
ghost use Rattle.feed_law.specs.FeedSites.{BareLaw, SiteLaw};
ghost use Rattle.feed_law.specs.FeedPosts.{MomentLaw, TitleLaw};
ghost use Rattle.feed_law.specs.PlainTexts.{PlainItemLaw, PlainPageLaw, PlainTextLaw};
ghost use Rattle.feed_law.specs.SitemapItems.{SitemapItemLaw};
ghost use Rattle.feed_law.specs.FeedLaws.{DateLaw, DeepLaw, ExcessLaw, PiecesLaw, TextLaw, TreeLaw, WholeLaw};

#[tactic(auto, using(crate::proofs::FeedTree::feed_tree))]
pub fn tree_law()
    ensures { TreeLaw }
{}

#[tactic(auto, using(crate::proofs::FeedLawProofs::pieces_law))]
pub fn pieces_law()
    ensures { PiecesLaw }
{}

#[tactic(auto, using(crate::proofs::FeedLawProofs::text_law))]
pub fn text_law()
    ensures { TextLaw }
{}

#[tactic(auto, using(crate::proofs::FeedLawProofs::whole_law))]
pub fn whole_law()
    ensures { WholeLaw }
{}

pub fn excess_law()
    ensures { ExcessLaw }
{}

#[tactic(auto, using(crate::proofs::FeedLawProofs::date_law))]
pub fn date_law()
    ensures { DateLaw }
{}

pub fn item_law()
    ensures { ItemLaw }
{}

pub fn item_text_law()
    ensures { ItemTextLaw }
{}

pub fn deep_law()
    ensures { DeepLaw }
{}

pub fn title_law()
    ensures { TitleLaw }
{}

#[tactic(auto, using(crate::proofs::FeedPostLaws::moment_law))]
pub fn moment_law()
    ensures { MomentLaw }
{}

pub fn site_law()
    ensures { SiteLaw }
{}

pub fn plain_text_law()
    ensures { PlainTextLaw }
{}

pub fn plain_item_law()
    ensures { PlainItemLaw }
{}

pub fn plain_page_law()
    ensures { PlainPageLaw }
{}

pub fn sitemap_item_law()
    ensures { SitemapItemLaw }
{}

pub fn bare_law()
    ensures { BareLaw }
{}
