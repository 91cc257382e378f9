// Ten sites, each a text of forms with choices.

/// Posts that show their neighbours, under a layout.
pub(crate) const NEIGHBOURS: &str = "
@_config.yml
title: <A^B^C>
@_layouts/post.html
<one^two>: {{ page.title }} ({{ page.previous.title }}, {{ page.next.title }}) {{ content }}
@_posts/2024-0<1^2^3>-0<1^2>-<a^b^c>.md
---
title: <A^B^C^D>
layout: <post^post^none>
---
<x^y^z> *{{ site.title }}*
@index.md
---
title: <I^J>
---
{{ page.title }} <u^v>
@about.txt
<s^t>
";

/// Lists by tags and by categories, their archives, a feed and a sitemap.
pub(crate) const LABELS: &str = "
@_config.yml
make_archives: [<tags^categories^tags, categories>]
archive_layout: <list^none>
make_feed: <true^true^false>
make_sitemap: <true^true^false>
@_layouts/list.html
{{ page.kind }} {{ page.title }}: {{ content }} {{ page.posts.first.title }} <1^2>
@_posts/2024-01-0<1^2^3^4>-<a^b>.md
---
title: <A^B^C>
tags: [<x^y^z>, <x^y^z>]
categories: <c^d^c d>
---
{{ page.tags.first }} {{ page.url }} <1^2>
@tags.html
---
sitemap: <true^false^\"false\">
---
{% for t in site.tags %}{{ t.first }}: {% for p in t.last %}{{ p.title }} {% endfor %}
{% endfor %}<m^n>
@categories.html
---
---
{% for c in site.categories %}{{ c[0] }}={{ c[1].size }}<!^?>
{% endfor %}
@x.html
---
---
{{ site.tags.x.size }} {{ site.tags.<x^y>[0].title }}
";

/// Lists of all posts, with excerpts, sorted, and with the moment.
pub(crate) const POSTS: &str = "
@_config.yml
excerpt_separator: <MORE^LESS>
@_posts/2024-0<1^2^3^4^5>-01-p.md
---
title: <A^B^C>
rank: <1^2^3>
---
<first^begin> {{ page.rank }} <MORE^LESS> <rest^tail>
@index.html
---
---
{% for p in site.posts limit:<2^3> %}{{ p.title }}: {{ p.excerpt | strip_html }}
{% endfor %}{{ site.posts.size }}
@ranks.html
---
---
{% assign s = site.posts | sort: \"rank\" %}{% for p in s %}{{ p.title }}{{ p.rank }} {% endfor %}<m^n>
@feed.xml
---
---
{% for p in site.posts %}{{ p.url }} {{ p.date | date: \"%F\" }} {{ p.content | strip_html }}{% endfor %}
{{ site.time | date: \"<%Y^%m>\" }}
@now.txt
---
---
{{ \"now\" | date: \"<%F^%B>\" }} {{ site.related_posts.size }}
";

/// Collections in an order, with and without output.
pub(crate) const COLLECTIONS: &str = "
@_config.yml
collections:
  c:
    output: <true^true^false>
  d:
    output: true
@_c/<1^2^3^4>.md
---
title: <A^B>
<date: 2024-01-01^date: 2024-02-02^order: 1>
---
{{ page.title }} {{ page.previous.title }} {{ page.next.title }}
@_d/<p^q>.html
---
---
{% for x in site.c %}{{ x.title }}{{ x.url }} {% endfor %}{{ site.c[<0^1>].content }}
@all.html
---
---
{% for x in site.collections %}{{ x.label }} {{ x.docs.size }} {% endfor %}{{ site.documents.size }}
{% for f in site.static_files %}{{ f.path }} {% endfor %}<m^n>
@_posts/2024-01-01-<a^b>.md
---
---
post <m^n>
@_c/picture.<a^b>
<x^y>
";

/// Layouts in layouts.
pub(crate) const LAYOUTS: &str = "
@_layouts/base.html
[<b^c>{{ page.title }} {{ layout.kind }}|{{ content }}]
@_layouts/page.html
---
layout: <base^base^none>
kind: <k^l>
---
({{ content }}{{ layout.kind }})
@_layouts/post.html
---
layout: <page^base^post>
kind: p
---
{{ content }}+<d^e>
@<a^b^c>.md
---
title: <A^B>
layout: <post^page^base^none>
---
text <1^2>
@_posts/2024-01-0<1^2>-<x^y>.md
---
title: <P^Q>
layout: <post^page>
---
post <1^2> {{ page.previous.output }}
";

/// Includes with parameters, some of which are not there.
pub(crate) const INCLUDES: &str = "
@_includes/note.html
<note^NOTE> {{ include.text }} {{ include.n | plus: 1 }}
@_includes/sub/outer.html
{% include note.html text=\"<o^p>\" n=<1^2> %}.
@<a^b>.md
---
title: <A^B>
---
{% include note.html text=page.title n=<3^4> %} {% include sub/outer.html %}
@d/<p^q>.html
---
part: <sub/outer.html^note.html^note.html^none.html>
---
{% include {{ page.part }} n=1 text=\"x\" %} {% include_relative <r^s>.txt %}
@d/<r^s>.txt
{{ page.part }} <t^u>
@plain.md
---
---
plain <x^y>
";

/// Tables of data.
pub(crate) const TABLES: &str = "
@_data/people.csv
name,role
<Ann^Bob>,<x^y>
<Cem^Dan>,<x^y^x^y^x,y>
@_data/shop/prices.json
{\"<pen^ink>\": <1^2^3>, \"cap\": <4^5>}
@_data/nav.yml
- title: <Home^Start>
  url: /
- title: <About^Us>
  url: /<a^b>
@_data/shop.yml
name: <S^T>
@list.html
---
---
{% for p in site.data.people %}{{ p.name }} {{ p.role }}
{% endfor %}
@roles.html
---
---
{% assign x = site.data.people | where: \"role\", \"<x^y>\" %}{{ x | map: \"name\" | join: \",\" }}
@prices.html
---
---
{{ site.data.shop.prices.pen }} {{ site.data.shop.prices.cap | times: 2 }} {{ site.data.shop.name }}
@nav.md
---
---
{% for n in site.data.nav %}- {{ n.title }} {{ n.url }}
{% endfor %}
@name.<html^txt>
---
---
{{ site.data.shop.name }}
";

/// Pages of posts, and archives and a sitemap among them.
pub(crate) const PAGINATORS: &str = "
@_config.yml
make_archives: [<tags^categories>]
make_sitemap: <true^false>
paginate: <1^2^3>
paginate_path: <\"/page:num\"^\"/blog/p:num\">
@_posts/2024-0<1^2^3^4>-01-<a^b>.md
---
title: <A^B>
tags: <x^y^x y>
hidden: <false^false^true>
---
<x^y>
@index.html
---
---
{{ page.url }} {{ paginator.page }}/{{ paginator.total_pages }} {% for p in paginator.posts %}{{ p.title }} {% endfor %}
{{ paginator.next_page_path }} {{ paginator.previous_page_path }} <m^n>
@blog/index.html
---
title: <B^C>
---
{{ paginator.page }} {{ page.title }} {% for p in paginator.posts %}{{ p.content }}{% endfor %}
@count.html
---
---
{{ site.pages.size }} {{ site.html_pages.size }} {{ paginator.page }} {% for p in site.pages %}{{ p.url }} {{ p.dir }} {% endfor %}
";

/// Permalinks, defaults, links, a sitemap, and outputs that stand in one another's way.
pub(crate) const ADDRESSES: &str = "
@_config.yml
permalink: <date^pretty^/:title/^/:year/:title:output_ext>
baseurl: <\"\"^/base>
make_sitemap: <true^false>
defaults:
- scope: {path: \"\", type: posts}
  values: {kind: <k^l>}
- scope: {path: sub}
  values: {kind: <m^n>, layout: base}
exclude: [<none^none^b.txt>]
@_layouts/base.html
{{ page.url }}: {{ content }}
@_posts/2024-01-0<1^2>-<a^b>.md
---
<title: A^title: B^slug: s^permalink: /x/:title/>
---
{{ page.url }} {{ page.kind }} <1^2^3>
@sub/<p^q>.md
---
---
{{ page.kind }} {% link <sub/p.md^sub/q.md^a.txt^index.html> %}
@go.html
---
permalink: /<a.txt^b^c>/
---
{{ \"/x\" | relative_url }} {{ \"/y\" | absolute_url }} {% for p in site.posts %}{{ p.url }} {% endfor %}
@post.html
---
---
{% post_url 2024-01-01-<a^a^b> %}
@<b^a.txt^b.txt>
<copied^text>
@index.html
---
---
home <1^2^3>
";

/// Posts that hold one another, and faults of many kinds.
pub(crate) const CHAINS: &str = "
@_posts/2024-0<1^2^3^4>-0<1^2>-p.md
---
title: <A^B>
---
{{ page.title }}<1^2> {{ page.previous.content | strip_html | truncate: 40 }} {{ page.next.content | size }}
@last.html
---
---
{{ site.posts.first.content }} {{ site.posts.last.output }} {{ site.posts[<0^1>].next.title }}
@division.md
---
n: <0^1^2^3^4>
---
{{ 6 | divided_by: page.n }} {{ site.posts.first.excerpt }}
@tag.html
---
published: <true^true^true^false^3>
---
<x^y^z^{% nope %}^{{^{{ 1 | plus }}>
@_layouts/unused.html
---
a: <b^[c]^[d]^[e>
---
@home.html
---
layout: <unused^none>
---
home
";
