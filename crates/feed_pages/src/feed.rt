// The feed's template.
ghost use Rattle.std.specs.Prelude.{◌≡◌};
ghost use Rattle.feed_pages.specs.FeedTemplate.{feed_template};

/// The text of the feed as a template: an Atom feed (RFC 4287) of the ten newest posts.
pub fn feed_body() -> &'static str
    ensures { result.now ≡ feed_template }
{
    "<?xml version=\"1.0\" encoding=\"utf-8\"?>\n<feed xmlns=\"http://www.w3.org/2005/Atom\">\n<title>{{ site.title | default: \"\" | xml_escape }}</title>\n<id>{{ \"/feed.xml\" | absolute_url | xml_escape }}</id>\n<updated>{{ site.posts.first.date | default: 0 | date_to_xmlschema }}</updated>\n{% for p in site.posts limit:10 %}<entry><title>{{ p.title | xml_escape }}</title><id>{{ p.url | absolute_url | xml_escape }}</id><link href=\"{{ p.url | absolute_url | xml_escape }}\"/><updated>{{ p.date | date_to_xmlschema }}</updated><content type=\"html\">{{ p.content | xml_escape }}</content></entry>\n{% endfor %}</feed>\n"
}
