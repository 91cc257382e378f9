// How many pages there are.
ghost use Rattle.std.specs.Prelude.{◌≡◌, ℕ, ◌*◌, ◌≤◌};
ghost use Rattle.pagination.specs.Pages.{page_count};

/// How many pages of `per_page` posts hold all posts.
pub fn page_count(posts: u32, per_page: u32) -> u32
    requires { 1 ≤ per_page }
    ensures count { result ≡ page_count posts per_page }

    // The least number of pages that have room for all posts.
    ensures room { posts ≤ result * per_page }
    ensures least { (pages : ℕ) → posts ≤ pages * per_page → result ≤ pages }
{
    posts.div_ceil(per_page)
}
