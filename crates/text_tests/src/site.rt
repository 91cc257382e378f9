// The site of bench/templates/site, with further documents of which excerpts are made.

/// What is looked up, by what it is and by its name. Each text of `items` is the path of an item, and so are the posts of the
/// paginator, which is that of `p.html`.
pub(crate) const SITE: &str = "
site:
  title: Notes
  baseurl: /b
  url: https://example.org
  timezone: +02:00
  markdown_ext: markdown,mkdown,mkdn,mkd,md
  excerpt_separator: \"\\n\\n\"
  words: [pear, Apple, fig, apple]
  numbers: [3, 1, 2, 10]
  mixed: [1, a, ~, [2, 3], {k: v}]
  goods:
    - {name: pen, price: 3, kind: Office, tags: [a, b]}
    - {name: Cup, price: 10, kind: kitchen, tags: [b]}
    - {name: ink, price: ~, kind: Office}
    - {name: bag, price: 3, kind: ~, tags: []}
  none: []
  void: {}
  nested: [[1, 2], [3]]
  conf: {b: 1, a: 2}
  sized: {size: 9, first: f}
  most: 9223372036854775807
  least: -9223372036854775808
data:
  conf: {a: 1, size: 9, 'x y': two}
  people:
    - {name: Ann, age: 30, city: Rome}
    - {name: bob, age: 25}
    - {name: Cid, age: 30, city: rome}
var:
  p.html:
    title: Page
    url: /p.html
    num: 5
    zero: 0
    one: 1
    text: Some *text* here
    long: One two three four five six
    blank: ''
    white: \"  \\n \"
    list: [c, a, b]
    hash: {k: v, l: w}
    flag: true
    nay: false
    tags: [x, y]
    uni: Ünïcödé 𝄞
    html: '<p>Hi & \"bye\" ''x''</p>'
    lines: \"a\\nb\\r\\nc\\n\"
  sub/q.html:
    title: Sub
  _posts/2024-01-01-first.md:
    title: First post
    url: /2024/01/01/first.html
    ext: .md
    tags: [a, b]
    rating: 2
  _posts/2024-01-02-second.md:
    title: Second & more
    url: /2024/01/02/second.html
    ext: .md
    tags: [b]
    rating: 3
    excerpt: Own *excerpt*
  _posts/2024-01-03-third.html:
    title: Third
    url: /2024/01/03/third.html
    ext: .html
    excerpt_separator: <!--more-->
  _posts/2022-01-01-odd.md:
    title: Odd
    ext: .md
  _posts/2022-01-02-within.md:
    ext: .md
  _posts/2022-01-03-whole.html:
    title: Whole
    ext: .html
  _posts/2022-01-04-counts.html:
    ext: .html
  _posts/2022-01-05-false.html:
    ext: .html
    excerpt: false
  _posts/2023-02-01-fault.md:
    ext: .md
  _posts/2023-02-02-tag.md:
    ext: .md
  _posts/2023-02-03-large.md:
    ext: .md
  _posts/2023-02-04-self.html:
    title: Self
    ext: .html
    excerpt_separator: '@'
  _posts/2023-02-05-ends.html:
    ext: .html
  _posts/2021-03-01-break.html:
    ext: .html
  _posts/2021-03-02-alone.html:
    ext: .html
  _posts/2021-03-03-includes.html:
    title: Inc
    ext: .html
source:
  _posts/2024-01-01-first.md: \"One *first* {{ page.title }}\\n\\nTwo.\\n\"
  _posts/2024-01-02-second.md: \"Second.\\n\"
  _posts/2024-01-03-third.html: 'Short {{ page.title | upcase }}<!--more-->Long'
  p.html: \"body\\n\"
  sub/q.html: '{{ page.title }}'
  _posts/2022-01-01-odd.md: \"A {{ page.title }}\\n\\nB\"
  _posts/2022-01-02-within.md: \"A{% if true %}\\n\\nB{% endif %}C\"
  _posts/2022-01-03-whole.html: 'Only {{ page.title }}'
  _posts/2022-01-04-counts.html: \"A{% assign x = 'x' | markdownify %}{{ x }}{% increment c %}\"
  _posts/2022-01-05-false.html: A
  _posts/2023-02-01-fault.md: \"a\\n{{ 1 | divided_by: 0 }}\\n\\nb\"
  _posts/2023-02-02-tag.md: \"{% nope %}\\n\\nb\"
  _posts/2023-02-03-large.md: '{{ 9223372036854775808 }}'
  _posts/2023-02-04-self.html: '{{ page.content }}|{{ page.output }}|{{ page.title }}{{ page.excerpt }}|{{ site.posts[2].content }}@rest'
  _posts/2023-02-05-ends.html: '{% break %}a'
  _posts/2021-03-01-break.html: 'a{% break %}b'
  _posts/2021-03-02-alone.html: '[{{ x }}{{ include.x }}{{ forloop.index }}]{% assign x = 2 %}{{ x }}'
  _posts/2021-03-03-includes.html: '{% include n.html x=page.title %}{% include_relative side.txt %}'
content:
  p.html: \"body\\n\"
  sub/q.html: '{{ page.title }}'
  _posts/2024-01-01-first.md: \"<p>One <em>first</em> First post</p>\\n<p>Two.</p>\\n\"
  _posts/2024-01-02-second.md: \"<p>Second.</p>\\n\"
  _posts/2024-01-03-third.html: Short THIRDLong
output:
  _posts/2024-01-01-first.md: <html>first</html>
paginator:
  page: 1
  per_page: 2
  posts: [_posts/2024-01-03-third.html, _posts/2024-01-02-second.md]
  total_posts: 3
  total_pages: 2
  previous_page: ~
  previous_page_path: ~
  next_page: 2
  next_page_path: /page2
include:
  b.html: '<{% break %}>'
  bad.html: \"a\\n{% nope %}\"
  block.html: '{% if true %}x{% endif %}'
  c.html: '<{% continue %}>'
  content.html: '{{ page.content }}'
  count.html: \"{% increment c %}{% cycle 'g': 'x', 'y' %}\"
  dir/in.html: 'in {{ page.title }}'
  down.html: '{{ include.n }}{% if include.n > 1 %}{% assign m = include.n | minus: 1 %}{% include down.html n=m %}{% endif %}'
  keeps.html: '{% include n.html %}'
  late.html: \"a\\n{{ 1 | divided_by: 0 }}\"
  lines.html: \"x\\n\\n{% for i in (1..2) %}{{ i }}{{ include.s }}{% endfor %}\\n\"
  n.html: '[{{ include.x }}]'
  outer.html: '({% include n.html x=include.y %}{{ include.x }}{{ include.y }})'
  own.html: '{% for q in (1..2) %}{{ q }}{% break %}{% endfor %}{{ include.x }}{% assign include = 4 %}{{ include }}'
  rel.html: '{% include_relative side.txt %}'
  sees.html: '{{ v }}{{ i }}{{ forloop.index }}'
  self.html: '{% include self.html %}'
  set.html: \"{% assign y = 'set' %}\"
  shows.html: '{{ site.more[1].excerpt }}{{ include.x }}'
file:
  side.txt: 'side {{ page.title }}{{ include.x }}'
  sub/rel.html: 'rel {{ page.title }}'
  sub/bad.txt: \"a\\nb\\n{{ 1 | divided_by: 0 }}\"
  _posts/side.txt: 's {{ page.title }}'
link:
  p.html: /p.html
  sub/q.html: /sub/q.html
  side.txt: /side.txt
  _posts/2024-01-01-first.md: /2024/01/01/first.html
  away.html: mailto:x
  empty.html: ''
post:
  2024-01-01-first: /2024/01/01/first.html
  2024-01-03-third: /2024/01/03/third.html
items:
  posts: [_posts/2024-01-03-third.html, _posts/2024-01-02-second.md, _posts/2024-01-01-first.md]
  pages: [p.html, sub/q.html]
  odd:
    - _posts/2022-01-01-odd.md
    - _posts/2022-01-02-within.md
    - _posts/2022-01-03-whole.html
    - _posts/2022-01-04-counts.html
    - _posts/2022-01-05-false.html
    - sub/q.html
  faulty:
    - _posts/2023-02-01-fault.md
    - _posts/2023-02-02-tag.md
    - _posts/2023-02-03-large.md
    - _posts/2023-02-04-self.html
    - _posts/2023-02-05-ends.html
  more: [_posts/2021-03-01-break.html, _posts/2021-03-02-alone.html, _posts/2021-03-03-includes.html]
  documents:
    - _posts/2024-01-03-third.html
    - _posts/2024-01-02-second.md
    - _posts/2024-01-01-first.md
    - _posts/2023-02-05-ends.html
    - _posts/2023-02-04-self.html
    - _posts/2023-02-03-large.md
    - _posts/2023-02-02-tag.md
    - _posts/2023-02-01-fault.md
    - _posts/2022-01-05-false.html
    - _posts/2022-01-04-counts.html
    - _posts/2022-01-03-whole.html
    - _posts/2022-01-02-within.md
    - _posts/2022-01-01-odd.md
    - _posts/2021-03-03-includes.html
    - _posts/2021-03-02-alone.html
    - _posts/2021-03-01-break.html
";
